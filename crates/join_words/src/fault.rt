/// Why a core, its periods, a stoch file and some options make no run. The
/// causes are tried in this order.
#[derive(Clone, Copy, Debug, Drop, PartialEq, Eq)]
pub enum JoinFault {
    /// An entry of the core whose column has a later stage than its row: the
    /// first line of COLUMNS that says one.
    Anticipates { line: u64 },
    /// More scenarios than a run may have.
    TooManyScenarios,
    /// More cells than a run may have: scenarios times columns, scenarios times
    /// rows, scenarios times nonleaf columns, or changes of all scenarios.
    TooManyCells,
    /// A reach above 2^120: the reach, or 2^127 where it is greater.
    Wide { reach: u128 },
    /// Memory was refused.
    Memory,
}
