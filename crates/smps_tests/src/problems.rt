use sample_files::{FARM_CORE, FARM_TIME, PAIR_CORE, PAIR_TIME};

/// The core file and the time file of a problem.
pub struct Problem {
    pub core: &'static str,
    pub time: &'static str,
}

/// Two periods with two rows in the second.
pub const PAIR: Problem = Problem {
    core: PAIR_CORE,
    time: PAIR_TIME,
};

/// Two periods, with entries of first columns in second rows.
pub const FARM: Problem = Problem {
    core: FARM_CORE,
    time: FARM_TIME,
};

/// Three periods with a column and a row each.
pub const THREE: Problem = Problem {
    core: "NAME THREE\nROWS\n N COST\n L LAND\n G C1\n G C2\nCOLUMNS\n X COST 1 LAND 1\n Y1 COST 1 C1 1\n Y2 COST 1 C2 1\nENDATA\n",
    time: "TIME THREE\nPERIODS\n X LAND T1\n Y1 C1 T2\n Y2 C2 T3\nENDATA\n",
};
