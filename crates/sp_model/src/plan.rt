use wide_num::List;

/// Multipliers: a number for each scenario and nonleaf column, scenario after
/// scenario.
#[derive(Debug, Drop)]
pub struct Multipliers {
    pub values: List<i128>,
}

/// A point for each scenario, with a value for each column.
#[derive(Debug, Drop)]
pub struct Plan {
    pub points: List<List<i64>>,
}
