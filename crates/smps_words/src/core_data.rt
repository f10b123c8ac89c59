use dec_core::Decimal;

/// The kind of a constraint row: at most its right side, at least it, or equal
/// to it.
#[derive(Clone, Copy, Debug, Drop, PartialEq, Eq)]
pub enum RowKind {
    Less,
    Greater,
    Equal,
}

/// A constraint row: its kind, its right side and its range, as the file has
/// them.
#[derive(Clone, Copy, Debug, Drop, PartialEq, Eq)]
pub struct CoreRow {
    pub kind: RowKind,
    pub right: Decimal,
    pub range: Option<Decimal>,
}

/// A column: the whole ends of its box, none where a side is open, whether it
/// stands between integer markers, and its cost.
#[derive(Clone, Copy, Debug, Drop, PartialEq, Eq)]
pub struct CoreColumn {
    pub lower: Option<i64>,
    pub upper: Option<i64>,
    pub marked: bool,
    pub cost: Decimal,
}

/// What one unit of a column adds to the activity of a constraint row, and the
/// number of the line that says so. Rows and columns are counted from 0.
#[derive(Clone, Copy, Debug, Drop, PartialEq, Eq)]
pub struct CoreEntry {
    pub row: u32,
    pub column: u32,
    pub value: Decimal,
    pub line: u64,
}
