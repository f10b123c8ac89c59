/// The kinds of faults of a core file.
#[derive(Clone, Copy, Debug, Drop, PartialEq, Eq)]
pub enum CoreKind {
    /// A byte outside 9 to 126.
    NotAscii,
    /// A line of more than 1024 bytes.
    LongLine,
    /// A header or a data line out of place, or an unknown header.
    Section,
    /// The header `OBJSENSE`.
    Sense,
    /// A wrong number of fields, or a field that isn't one of the words allowed
    /// there.
    Fields,
    /// A field that isn't spelled as a number.
    Number,
    /// A number of more than nine decimal places.
    TooManyPlaces,
    /// A number with a mantissa of a magnitude above 10^36.
    TooLarge,
    UnknownRow,
    UnknownColumn,
    /// A row's name, a column that begins again, or a second entry, right side
    /// or range of one place.
    Twice,
    /// No row of kind N at the header `COLUMNS`.
    NoObjective,
    /// A bound that says that there is no number above or below its column, or
    /// an upper bound below 0 where no earlier line speaks of the lower one.
    BadBound,
    /// A row or column past the limit, or a bound of a magnitude above 10^9.
    Limit,
    /// A box without a number, at the header `ENDATA`.
    EmptyBox,
    /// No header `ENDATA`.
    NoEnd,
}

/// Why a core file has no core: the kind and the line of its first fault, or
/// there was no memory.
#[derive(Clone, Copy, Debug, Drop, PartialEq, Eq)]
pub enum CoreFault {
    At { line: u64, kind: CoreKind },
    Memory,
}

/// Why a line isn't taken up.
#[derive(Clone, Copy, Debug, Drop, PartialEq, Eq)]
pub enum Stop {
    Fault(CoreKind),
    Memory,
}
