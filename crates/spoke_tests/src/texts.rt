//! The files of the tests that stand nowhere else.

/// SMALL with a constant of -100 in its objective.
pub const BELOW_CORE: &str =
    "NAME SMALL\nROWS\n N COST\n G NEED\nCOLUMNS\n X COST 1 NEED 1\n Y COST 3 NEED 1\nRHS\n RHS NEED 2 COST 100\nBOUNDS\n UP BND X 10\n UP BND Y 10\nENDATA\n";

/// Three scenarios of weight 1 that share the node of the first stage.
pub const THREE_STOCH: &str =
    "STOCH THREE\nSCENARIOS DISCRETE\n SC A ROOT 1 T2\n RHS NEED 0\n SC B ROOT 1 T2\n RHS NEED 0\n SC C ROOT 1 T2\n RHS NEED 1\nENDATA\n";

/// Three stages, the last scenario alone from the second on.
pub const STAGES_CORE: &str =
    "NAME STAGES\nROWS\n N COST\n G NEED\n G MORE\nCOLUMNS\n X COST 1 NEED 1\n X MORE 1\n Y COST 2 NEED 1\n Y MORE 1\n Z COST 5 MORE 1\nRHS\n RHS NEED 1 MORE 2\nBOUNDS\n UP BND X 6\n UP BND Y 6\n UP BND Z 9\nENDATA\n";

pub const STAGES_TIME: &str = "TIME STAGES\nPERIODS\n X COST T1\n Y NEED T2\n Z MORE T3\nENDATA\n";

pub const STAGES_STOCH: &str =
    "STOCH STAGES\nSCENARIOS DISCRETE\n SC A ROOT 0.25 T2\n RHS NEED 2 MORE 3\n SC B A 0.25 T3\n RHS MORE 8\n SC C ROOT 0.5 T2\n RHS NEED 4 MORE 5\nENDATA\n";
