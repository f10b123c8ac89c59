/// What is wrong with a line of a time file.
#[derive(Clone, Copy, Debug, Drop, PartialEq, Eq)]
pub enum TimeKind {
    /// A byte outside 9 to 126.
    NotAscii,
    /// More than 1024 bytes.
    LongLine,
    /// A header that isn't known or is out of place, the word `EXPLICIT`, or a
    /// line of data before the header PERIODS.
    Section,
    /// Other than three fields for a period, or other than one for the end.
    Fields,
    /// No column, or neither the objective nor a constraint row, of this name.
    Unknown,
    /// An earlier period has this name.
    Twice,
    /// A first period that doesn't begin with the first column and row, or a
    /// later one that begins no later than the one before it.
    Order,
    /// The ninth period, or fewer than two at the end.
    Limit,
    /// No end line.
    NoEnd,
}

/// Why a time file wasn't read.
#[derive(Clone, Copy, Debug, Drop, PartialEq, Eq)]
pub enum TimeFault {
    /// The first fault of the file, with the number of its line, from 1.
    At { line: u64, kind: TimeKind },
    /// There was no memory.
    Memory,
}
