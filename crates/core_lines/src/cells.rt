use dec_core::Decimal;

/// An entry or a cost as a line of COLUMNS says it: rows are counted with the
/// objective as 0 and the constraint rows from 1.
#[derive(Clone, Copy, Debug, Drop, PartialEq, Eq)]
pub struct Cell {
    pub row: u32,
    pub column: u32,
    pub value: Decimal,
    pub line: u64,
}

/// A right side or a range as a line says it: rows are counted with the
/// objective as 0 and the constraint rows from 1.
#[derive(Clone, Copy, Debug, Drop, PartialEq, Eq)]
pub struct RowValue {
    pub row: u32,
    pub value: Decimal,
}

/// What a line of BOUNDS says of an end of a box: nothing, that the side is
/// open, or the end.
#[derive(Clone, Copy, Debug, Drop, PartialEq, Eq)]
pub enum EndChange {
    Kept,
    Open,
    At(i64),
}

/// What a line of BOUNDS says of a column's box, and whether its kind is one
/// after which an upper bound below 0 may stand.
#[derive(Clone, Copy, Debug, Drop, PartialEq, Eq)]
pub struct Bound {
    pub column: u32,
    pub lower: EndChange,
    pub upper: EndChange,
    pub speaks_low: bool,
}
