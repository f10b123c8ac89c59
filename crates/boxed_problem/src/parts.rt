use wide_num::List;

/// The ends of a column's box, both of them allowed.
#[derive(Clone, Copy, Debug, Drop, PartialEq, Eq)]
pub struct Side {
    pub lower: i64,
    pub upper: i64,
}

/// The limits of a row's activity, both of them allowed; none where a side is open.
#[derive(Clone, Copy, Debug, Drop, PartialEq, Eq)]
pub struct Limits {
    pub lower: Option<i128>,
    pub upper: Option<i128>,
}

/// What one unit of a column adds to the activity of a row. Rows and columns
/// are counted from 0.
#[derive(Clone, Copy, Debug, Drop, PartialEq, Eq)]
pub struct Entry {
    pub row: u32,
    pub column: u32,
    pub value: i128,
}

/// A point, one number for each column, with the value of the objective there.
#[derive(Clone, Debug, Drop, PartialEq, Eq)]
pub struct Best {
    pub point: List<i64>,
    pub value: i128,
}

/// Prices of the rows, each over the scale: a price of `values` stands for
/// itself divided by `scale`.
#[derive(Clone, Debug, Drop, PartialEq, Eq)]
pub struct Prices {
    pub scale: i128,
    pub values: List<i128>,
}
