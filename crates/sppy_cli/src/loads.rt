ghost use Rattle.std.specs.Option.{option_copied};
ghost use Rattle.std.specs.Prelude.{◌≡◌, ◌<◌, IfOk, length};
ghost use Rattle.io_edge.specs.Faults.{CountsTo};
ghost use Rattle.smps_core.specs.CoreData.{IsCoreOf};
ghost use Rattle.smps_stoch.specs.StochFacts.{StochFacts};
ghost use Rattle.smps_words.specs.declared.periods.Periods.{Periods};
ghost use Rattle.sppy_cli.specs.Files.{ShowsPeriods, ShowsStoch, ShowsTurns, core_file, schedule_file, stoch_file, time_file};
ghost use Rattle.sppy_cli.specs.Loads.{Loads, LoadsBytes, LoadsName, LoadsNameIfAny, LoadsSchedule, load_fault_of, status_of_file};
ghost use Rattle.sppy_cli.specs.Causes.{IsOfCrew};
ghost use Rattle.sppy_cli.specs.Statuses.{reported};

use crate::status::{InputFault, InputFile, InputKind, Status};
use io_edge::{LoadFault, Shelf};
use schedule_lines::{Schedule, ScheduleFault, read_schedule};
use smps_core::{CoreFault, read_core};
use smps_stoch::{Stoch, StochFault, read_stoch};
use smps_time::{TimeFault, read_time};
use smps_words::{Core, Periods};
use sp_model::Run;
use std::alloc::Global;
use wide_num::List;

/// The greatest length of a file, in bytes.
pub const MAX_FILE_BYTES: usize = 67108864;

/// Why a file isn't read.
#[derive(Clone, Copy, Debug, Drop, PartialEq, Eq)]
pub enum FileFault {
    /// It is too long, or has this fault first.
    Wrong { line: u64, kind: InputKind },
    /// The load failed; the shelf's count of faults after it.
    Failed { faults: u64 },
    Memory,
}

impl FileFault {
    /// The status of a command that ends by this fault of a file.
    pub fn status(self, file: InputFile) -> Status
        ensures { result ≡ status_of_file file self }
    {
        match self {
            FileFault::Wrong { line, kind } => Status::Input(InputFault { file, line, kind }),
            FileFault::Failed { faults } => Status::ReadFault { faults },
            FileFault::Memory => Status::Memory,
        }
    }
}

// The bytes of a file.
fn load<S: Shelf>(alloc: Global, shelf: &mut S, name: &str) -> Result<Vec<u8>, FileFault>
    ensures gives { LoadsBytes (λ loaded. loaded.items) (S.files shelf.old) name.now result }
    ensures files { S.files shelf.new ≡ S.files shelf.old }
    ensures names { LoadsName name.now (S.names shelf.old) (S.names shelf.new) result }
    ensures count { CountsTo (S.count shelf.old) (S.count shelf.new)
        (reported load_fault_of result) }
{
    match shelf.load(alloc, name, MAX_FILE_BYTES) {
        Ok(bytes) => Ok(bytes),
        Err(LoadFault::Failed) => Err(FileFault::Failed {
            faults: shelf.faults(),
        }),
        Err(LoadFault::TooLong) => Err(FileFault::Wrong {
            line: 0,
            kind: InputKind::TooLong,
        }),
        Err(LoadFault::Memory) => Err(FileFault::Memory),
    }
}

/// Loads and reads a core file.
pub fn load_core<S: Shelf>(alloc: Global, shelf: &mut S, name: &str) -> Result<Core, FileFault>
    ensures gives { Loads core_file IsCoreOf (S.files shelf.old) name.now result }
    ensures files { S.files shelf.new ≡ S.files shelf.old }
    ensures names { LoadsName name.now (S.names shelf.old) (S.names shelf.new) result }
    ensures count { CountsTo (S.count shelf.old) (S.count shelf.new)
        (reported load_fault_of result) }
{
    let bytes = load(alloc, shelf, name)?;
    match read_core(alloc, &bytes) {
        Ok(core) => Ok(core),
        Err(CoreFault::At { line, kind }) => Err(FileFault::Wrong {
            line,
            kind: InputKind::Core(kind),
        }),
        Err(CoreFault::Memory) => Err(FileFault::Memory),
    }
}

/// Loads and reads a time file for a core.
pub fn load_time<S: Shelf>(
    alloc: Global,
    shelf: &mut S,
    name: &str,
    core: &Core,
) -> Result<Periods, FileFault>
    ensures gives { Loads (time_file core.now) ShowsPeriods (S.files shelf.old) name.now result }
    ensures columns { IfOk result (λ (_ : Periods). 0 < length core.now.columns) }
    ensures files { S.files shelf.new ≡ S.files shelf.old }
    ensures names { LoadsName name.now (S.names shelf.old) (S.names shelf.new) result }
    ensures count { CountsTo (S.count shelf.old) (S.count shelf.new)
        (reported load_fault_of result) }
{
    let bytes = load(alloc, shelf, name)?;
    match read_time(alloc, &bytes, core) {
        Ok(periods) => Ok(periods),
        Err(TimeFault::At { line, kind }) => Err(FileFault::Wrong {
            line,
            kind: InputKind::Time(kind),
        }),
        Err(TimeFault::Memory) => Err(FileFault::Memory),
    }
}

/// Loads and reads a stoch file for a core and its periods.
pub fn load_stoch<S: Shelf>(
    alloc: Global,
    shelf: &mut S,
    name: &str,
    core: &Core,
    periods: &Periods,
) -> Result<Stoch, FileFault>
    ensures gives { Loads (stoch_file core.now periods.now) ShowsStoch (S.files shelf.old) name.now
        result }
    ensures beside { IfOk result (λ stoch. StochFacts core.now periods.now stoch) }
    ensures files { S.files shelf.new ≡ S.files shelf.old }
    ensures names { LoadsName name.now (S.names shelf.old) (S.names shelf.new) result }
    ensures count { CountsTo (S.count shelf.old) (S.count shelf.new)
        (reported load_fault_of result) }
{
    let bytes = load(alloc, shelf, name)?;
    match read_stoch(alloc, &bytes, core, periods) {
        Ok(stoch) => Ok(stoch),
        Err(StochFault::At { line, kind }) => Err(FileFault::Wrong {
            line,
            kind: InputKind::Stoch(kind),
        }),
        Err(StochFault::Memory) => Err(FileFault::Memory),
    }
}

// Loads and reads a schedule for the ranks and spokes of a run.
fn load_schedule<S: Shelf>(
    alloc: Global,
    shelf: &mut S,
    name: &str,
    run: &Run,
) -> Result<Schedule, FileFault>
    ensures gives { Loads (schedule_file run.now.options) ShowsTurns (S.files shelf.old) name.now
        result }
    ensures crew { IfOk result (IsOfCrew run.now.options) }
    ensures files { S.files shelf.new ≡ S.files shelf.old }
    ensures names { LoadsName name.now (S.names shelf.old) (S.names shelf.new) result }
    ensures count { CountsTo (S.count shelf.old) (S.count shelf.new)
        (reported load_fault_of result) }
{
    let bytes = load(alloc, shelf, name)?;
    let spokes = run.options.lagrangian + run.options.xhat;
    match read_schedule(alloc, &bytes, run.options.ranks, spokes) {
        Ok(schedule) => Ok(schedule),
        Err(ScheduleFault::At { line, kind }) => Err(FileFault::Wrong {
            line,
            kind: InputKind::Schedule(kind),
        }),
        Err(ScheduleFault::Memory) => Err(FileFault::Memory),
    }
}

/// Loads and reads a schedule, if there is one; else the empty schedule is
/// answered and nothing loaded.
pub fn load_schedule_if_any<S: Shelf>(
    alloc: Global,
    shelf: &mut S,
    name: Option<&str>,
    run: &Run,
) -> Result<Schedule, FileFault>
    ensures gives { LoadsSchedule (S.files shelf.old) (option_copied name.entry)
        run.now.options result }
    ensures crew { IfOk result (IsOfCrew run.now.options) }
    ensures files { S.files shelf.new ≡ S.files shelf.old }
    ensures names { LoadsNameIfAny (option_copied name.entry) (S.names shelf.old)
        (S.names shelf.new) result }
    ensures count { CountsTo (S.count shelf.old) (S.count shelf.new)
        (reported load_fault_of result) }
{
    match name {
        Some(name) => load_schedule(alloc, shelf, name, run),
        None => Ok(Schedule {
            turns: List::new(alloc),
        }),
    }
}
