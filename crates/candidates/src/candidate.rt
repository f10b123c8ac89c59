use wide_num::List;

/// A candidate: a value for each scenario and nonleaf column, scenario after
/// scenario.
#[derive(Debug, Drop)]
pub struct Candidate {
    pub values: List<i64>,
}
