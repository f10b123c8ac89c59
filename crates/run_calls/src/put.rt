use sp_model::Multipliers;
use wide_num::List;

/// What the hub sends: multipliers, and the values that they were made from.
#[derive(Debug, Drop)]
pub struct Put {
    /// Counted from 1.
    pub number: u64,
    pub multipliers: Multipliers,
    /// The values of the nonleaf columns, scenario after scenario.
    pub x: List<i64>,
}
