//! The files of the tests that stand nowhere else.

/// The stoch file of FARM: yields of the fields in three years.
pub const FARM_STOCH: &str =
    "STOCH FARM\nSCENARIOS DISCRETE\n SC GOOD ROOT 0.333333 T2\n X1 WHEAT 3\n X2 CORN 3.6\n X3 BEETS 24\n SC FAIR ROOT 0.333333 T2\n X1 WHEAT 2.5\n X2 CORN 3\n X3 BEETS 20\n SC POOR ROOT 0.333333 T2\n X1 WHEAT 2\n X2 CORN 2.4\n X3 BEETS 16\nENDATA\n";

/// A column whose box lies on both sides of 0.
pub const BELOW_CORE: &str =
    "NAME BELOW\nROWS\n N COST\n G NEED\nCOLUMNS\n X COST 1 NEED 1\n Y COST 3 NEED 1\nRHS\n RHS NEED -3\nBOUNDS\n LO BND X -3\n UP BND X 3\n UP BND Y 10\nENDATA\n";

pub const BELOW_STOCH: &str =
    "STOCH BELOW\nSCENARIOS DISCRETE\n SC LOW ROOT 0.5 T2\n RHS NEED -3\n SC HIGH ROOT 0.5 T2\n RHS NEED -2\nENDATA\n";

/// Three stages, two nodes of two scenarios at the second.
pub const YEARS_CORE: &str =
    "NAME YEARS\nROWS\n N COST\n G NEED\n G MORE\nCOLUMNS\n X COST 2 NEED 1\n X MORE 1\n Y COST 3 NEED 1\n Y MORE 2\n Z COST 7 MORE 1\nRHS\n RHS NEED 1 MORE 2\nBOUNDS\n LO BND X -2\n UP BND X 5\n UP BND Y 4\n UP BND Z 6\nENDATA\n";

pub const YEARS_TIME: &str = "TIME YEARS\nPERIODS\n X COST T1\n Y NEED T2\n Z MORE T3\nENDATA\n";

pub const YEARS_STOCH: &str =
    "STOCH YEARS\nSCENARIOS DISCRETE\n SC A ROOT 0.2 T2\n RHS NEED 2 MORE 3\n SC B A 0.3 T3\n RHS MORE 9\n SC C ROOT 0.1 T2\n RHS NEED -1 MORE -2\n SC D C 0.4 T3\n RHS MORE 4\nENDATA\n";
