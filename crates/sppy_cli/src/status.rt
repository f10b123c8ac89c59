use core_lines::CoreKind;
use schedule_lines::ScheduleKind;
use smps_time::TimeKind;
use stoch_lines::StochKind;

/// A file of the command, by what it is; `Join` stands for core, time and stoch
/// together.
#[derive(Clone, Copy, Debug, Drop, PartialEq, Eq)]
pub enum InputFile {
    Core,
    Time,
    Stoch,
    Join,
    Schedule,
}

/// Why three files without a fault make no run.
#[derive(Clone, Copy, Debug, Drop, PartialEq, Eq)]
pub enum JoinKind {
    /// An entry of the core whose column has a later stage than its row.
    Anticipates,
    /// More than 4096 scenarios.
    TooManyScenarios,
    /// Scenarios times columns, rows or nonleaf columns, or all changes, past
    /// their limits.
    TooManyCells,
}

/// What is wrong with a file.
#[derive(Clone, Copy, Debug, Drop, PartialEq, Eq)]
pub enum InputKind {
    /// It has more than 67108864 bytes.
    TooLong,
    Core(CoreKind),
    Time(TimeKind),
    Stoch(StochKind),
    Join(JoinKind),
    Schedule(ScheduleKind),
}

/// A fault of a file, with the line where it stands; 0 for the file as a whole.
#[derive(Clone, Copy, Debug, Drop, PartialEq, Eq)]
pub struct InputFault {
    pub file: InputFile,
    pub line: u64,
    pub kind: InputKind,
}

/// How a command ended. Scenarios are counted from 0.
#[derive(Clone, Copy, Debug, Drop, PartialEq, Eq)]
pub enum Status {
    /// The whole text was written.
    Done,
    /// The words aren't well formed; nothing was loaded or written.
    Words,
    /// A file isn't what it should be; nothing was written.
    Input(InputFault),
    /// A scenario has no feasible point; the heading was written.
    Infeasible { scenario: u32 },
    /// A scenario used up the budget of boxes; the heading was written.
    Spent { scenario: u32, opened: u64 },
    /// The numbers of the run would be too great: `reach`, or 2^127 where it is
    /// greater; nothing was written.
    Wide { reach: u128 },
    /// A load failed; `faults` is the shelf's count after it.
    ReadFault { faults: u64 },
    /// A put failed; `faults` is the sink's count after it.
    WriteFault { faults: u64 },
    /// Memory was refused.
    Memory,
}
