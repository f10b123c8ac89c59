/// Why a run has no wait-and-see bound. Scenarios are counted from 0.
#[derive(Clone, Copy, Debug, Drop, PartialEq, Eq)]
pub enum WaitFault {
    /// The first scenario without a feasible point.
    Infeasible { scenario: u32 },
    /// The budget of boxes is used up in this scenario, and each earlier one has
    /// a feasible point.
    Spent { scenario: u32, opened: u64 },
    Memory,
}
