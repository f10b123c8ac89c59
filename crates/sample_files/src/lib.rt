//! The files of three worked examples, which the tests of several crates read:
//! SMALL, two columns and two scenarios; PAIR, two rows in the second period; FARM,
//! a farmer's fields, sales and purchases.
#![tactic(auto)]

/// The core file of SMALL.
pub const SMALL_CORE: &str =
    "NAME SMALL\nROWS\n N COST\n G NEED\nCOLUMNS\n X COST 1 NEED 1\n Y COST 3 NEED 1\nRHS\n RHS NEED 2\nBOUNDS\n UP BND X 10\n UP BND Y 10\nENDATA\n";

/// The time file of SMALL.
pub const SMALL_TIME: &str = "TIME SMALL\nPERIODS\n X COST T1\n Y NEED T2\nENDATA\n";

/// The stoch file of SMALL: a list of two scenarios.
pub const SMALL_STOCH: &str =
    "STOCH SMALL\nSCENARIOS DISCRETE\n SC LOW ROOT 0.5 T2\n RHS NEED 2\n SC HIGH ROOT 0.5 T2\n RHS NEED 6\nENDATA\n";

/// The core file of PAIR.
pub const PAIR_CORE: &str =
    "NAME PAIR\nROWS\n N COST\n G C1\n G C2\nCOLUMNS\n X COST 1 C1 1\n X C2 1\n Y1 COST 3 C1 1\n Y2 COST 3 C2 1\nRHS\n RHS C1 2 C2 1\nBOUNDS\n UP BND X 10\n UP BND Y1 10\n UP BND Y2 10\nENDATA\n";

/// The time file of PAIR.
pub const PAIR_TIME: &str = "TIME PAIR\nPERIODS\n X COST T1\n Y1 C1 T2\nENDATA\n";

/// The core file of FARM.
pub const FARM_CORE: &str =
    "NAME FARM\nROWS\n N COST\n L LAND\n G WHEAT\n G CORN\n G BEETS\nCOLUMNS\n X1 COST 150 LAND 1\n X1 WHEAT 2.5\n X2 COST 230 LAND 1\n X2 CORN 3\n X3 COST 260 LAND 1\n X3 BEETS 20\n Y1 COST 238 WHEAT 1\n Y2 COST 210 CORN 1\n W1 COST -170 WHEAT -1\n W2 COST -150 CORN -1\n W3 COST -36 BEETS -1\n W4 COST -10 BEETS -1\nRHS\n RHS LAND 500 WHEAT 200\n RHS CORN 240\nBOUNDS\n UP BND W3 6000\nENDATA\n";

/// The time file of FARM, with entries of first columns in second rows.
pub const FARM_TIME: &str = "TIME FARM\nPERIODS\n X1 LAND T1\n Y1 WHEAT T2\nENDATA\n";
