/// Where points of the scenarios are no plan.
#[derive(Clone, Copy, Debug, Drop, PartialEq, Eq)]
pub enum NoPlan {
    /// A scenario's value outside the column's box.
    Outside {
        scenario: u32,
        column: u32,
        value: i64,
    },
    /// A row's activity outside its limits in a scenario.
    Row {
        scenario: u32,
        row: u32,
        activity: i128,
    },
    /// Another value in a node and a column of its stage than that of the
    /// node's first scenario.
    Split {
        node: u32,
        column: u32,
        first: i64,
        other: i64,
    },
}
