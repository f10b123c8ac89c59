use dec_core::Decimal;

/// A number of the core that may differ between scenarios. Rows and columns
/// are counted from 0.
#[derive(Clone, Copy, Debug, Drop, PartialEq, Eq, Hash)]
pub enum StochPlace {
    /// The cost of a column.
    Cost(u32),
    /// What one unit of a column adds to a row: the row, then the column.
    Cell(u32, u32),
    /// The right side of a row.
    Right(u32),
}

/// The value of a place, and the number of the line that gives it.
#[derive(Clone, Copy, Debug, Drop, PartialEq, Eq)]
pub struct StochEntry {
    pub place: StochPlace,
    pub value: Decimal,
    pub line: u64,
}

/// What the lines of one element have in common: their place, or the number of
/// their block.
#[derive(Clone, Copy, Debug, Drop, PartialEq, Eq, Hash)]
pub enum Source {
    Place(StochPlace),
    Block(usize),
}
