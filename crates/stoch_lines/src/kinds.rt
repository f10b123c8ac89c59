/// What is wrong in a line of a stoch file.
#[derive(Clone, Copy, Debug, Drop, PartialEq, Eq)]
pub enum StochKind {
    /// A byte outside 9 to 126.
    NotAscii,
    /// More than 1024 bytes.
    LongLine,
    /// A header or a line out of its place, or a header that there isn't.
    Section,
    /// A word behind a section's header other than `DISCRETE` and `REPLACE`.
    Mode,
    /// A wrong number of fields.
    Fields,
    /// A field that isn't spelled as a number.
    Number,
    /// A number with more than nine decimal places.
    TooManyPlaces,
    /// A number whose mantissa has a magnitude above 10^36.
    TooLarge,
    /// A name of a column, a row or a period that there isn't.
    Unknown,
    /// A probability that isn't above 0, or is above 10^9.
    Weight,
    /// A place whose stage is before the period from which it may change.
    EarlyEntry,
    /// An entry of a column in a row of an earlier stage.
    Anticipates,
    /// Another period than that of the element's first line.
    Clash,
    /// A place or a name that was given before.
    Twice,
    /// A parent that is no earlier scenario.
    Parent,
    /// A scenario past the greatest number of them.
    Limit,
    /// The file has no end.
    NoEnd,
}

/// Why a stoch file has no data.
#[derive(Clone, Copy, Debug, Drop, PartialEq, Eq)]
pub enum StochFault {
    /// This line, counted from 1, is the first with a fault.
    At { line: u64, kind: StochKind },
    /// There was no memory.
    Memory,
}
