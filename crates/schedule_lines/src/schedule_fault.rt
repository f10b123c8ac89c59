/// What is wrong with a line or a word of a schedule file.
#[derive(Clone, Copy, Debug, Drop, PartialEq, Eq)]
pub enum ScheduleKind {
    /// A byte outside 9 to 126.
    NotAscii,
    /// More than 1024 bytes.
    LongLine,
    /// A word that isn't spelled as a turn, or whose count isn't from 1 to
    /// 1000000.
    Word,
    /// No rank, or no spoke, of this number.
    Actor,
    /// The word that takes the sum of the counts past 10000000.
    Limit,
}

/// Why a schedule file wasn't read.
#[derive(Clone, Copy, Debug, Drop, PartialEq, Eq)]
pub enum ScheduleFault {
    /// The first fault of the file, with the number of its line, from 1.
    At { line: u64, kind: ScheduleKind },
    /// There was no memory.
    Memory,
}
