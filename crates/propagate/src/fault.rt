/// The range of a row's activity misses its limits: no point of the sides meets
/// the row.
#[derive(Clone, Copy, Debug, Drop, PartialEq, Eq)]
pub struct Empty {
    pub row: u32,
}

/// Why sides on a trail aren't tightened to the end.
#[derive(Clone, Copy, Debug, Drop, PartialEq, Eq)]
pub enum TrailFault {
    /// The range of this row's activity misses its limits.
    Empty { row: u32 },
    /// Memory was refused.
    Memory,
}
