/// Why a candidate has no price. Scenarios are counted from 0.
#[derive(Clone, Copy, Debug, Drop, PartialEq, Eq)]
pub enum PriceFault {
    /// The first scenario without a feasible point that has the candidate's values.
    NoPoint { scenario: u32 },
    /// The budget of this scenario's search is used up: `opened` boxes were opened.
    Spent { scenario: u32, opened: u64 },
    /// Memory was refused.
    Memory,
}
