ghost use Rattle.std.specs.Prelude.{◌≡◌, IfOk, None};
ghost use Rattle.io_edge.specs.Faults.{CountsTo};
ghost use Rattle.run_words.specs.Words.{request_of};
ghost use Rattle.sp_model.specs.RunFacts.{OptionFacts};
ghost use Rattle.sppy_cli.specs.Causes.{KeepsAll, KeepsFacts, join_at, status_of_join};
ghost use Rattle.sppy_cli.specs.Desk.{LoadsFiles, LoadsInstance, MakesRun};
ghost use Rattle.sppy_cli.specs.InTurn.{LoadsAllInTurn, LoadsThreeInTurn};
ghost use Rattle.sppy_cli.specs.Statuses.{read_fault_of, reported};

use crate::instance::{Instance, Triple};
use crate::loads::{load_core, load_schedule_if_any, load_stoch, load_time};
use crate::status::{InputFault, InputFile, InputKind, JoinKind, Status};
use io_edge::Shelf;
use join_words::JoinFault;
use run_words::Command;
use smps_join::join;
use sp_model::{Options, Run};
use std::alloc::Global;

// The status of a fault of the three files together.
fn join_at(line: u64, kind: JoinKind) -> Status
    ensures { result ≡ join_at line kind }
{
    Status::Input(InputFault {
        file: InputFile::Join,
        line,
        kind: InputKind::Join(kind),
    })
}

// The status of a command whose files the join refuses.
fn status_of(fault: JoinFault) -> Status
    ensures { result ≡ status_of_join fault }
{
    match fault {
        JoinFault::Anticipates { line } => join_at(line, JoinKind::Anticipates),
        JoinFault::TooManyScenarios => join_at(0, JoinKind::TooManyScenarios),
        JoinFault::TooManyCells => join_at(0, JoinKind::TooManyCells),
        JoinFault::Wide { reach } => Status::Wide { reach },
        JoinFault::Memory => Status::Memory,
    }
}

// Loads and reads three files of a command in turn, core, time and stoch.
fn load_files<S: Shelf>(
    alloc: Global,
    shelf: &mut S,
    command: &Command<'_>,
) -> Result<Triple, Status>
    ensures gives { LoadsFiles (S.files shelf.old) (request_of command.now) result }
    ensures keeps { IfOk result KeepsFacts }
    ensures files { S.files shelf.new ≡ S.files shelf.old }
    ensures names { LoadsThreeInTurn (S.files shelf.old) (request_of command.now)
        (S.names shelf.old) (S.names shelf.new) result }
    ensures count { CountsTo (S.count shelf.old) (S.count shelf.new)
        (reported read_fault_of result) }
{
    let core = match load_core(alloc, shelf, command.core) {
        Ok(core) => core,
        Err(failure) => return Err(failure.status(InputFile::Core)),
    };
    let periods = match load_time(alloc, shelf, command.time, &core) {
        Ok(periods) => periods,
        Err(failure) => return Err(failure.status(InputFile::Time)),
    };
    match load_stoch(alloc, shelf, command.stoch, &core, &periods) {
        Ok(stoch) => Ok(Triple {
            core,
            periods,
            stoch,
        }),
        Err(failure) => Err(failure.status(InputFile::Stoch)),
    }
}

// The run that three files make with these options, or the status of a refusal.
fn run_of(alloc: Global, triple: &Triple, options: &Options) -> Result<Run, Status>
    requires facts { KeepsFacts triple.now }
    requires ranges { OptionFacts options.now }
    ensures gives { MakesRun triple.now options.now result }
    ensures read { reported read_fault_of result ≡ None }
{
    match join(alloc, &triple.core, &triple.periods, &triple.stoch, options) {
        Ok(run) => Ok(run),
        Err(fault) => Err(status_of(fault)),
    }
}

/// Loads the files of a command in turn, core, time and stoch, makes their run,
/// and then loads the schedule, if it has one. Each is loaded only where those
/// before it were loaded and have no fault, and the schedule only where there is
/// a run. Where there is none, or the schedule has a fault, the answer is the
/// status of the command: the first fault of a file, what the join refuses, a
/// read fault, or want of memory.
pub fn load_instance<S: Shelf>(
    alloc: Global,
    shelf: &mut S,
    command: &Command<'_>,
) -> Result<Instance, Status>
    requires range { OptionFacts command.now.options }
    requires alone { command.now.options.xhat ≡ 0 }
    ensures gives { LoadsInstance (S.files shelf.old) (request_of command.now) result }
    ensures keeps { IfOk result KeepsAll }
    ensures files { S.files shelf.new ≡ S.files shelf.old }
    ensures names { LoadsAllInTurn (S.files shelf.old) (request_of command.now)
        (S.names shelf.old) (S.names shelf.new) result }
    ensures count { CountsTo (S.count shelf.old) (S.count shelf.new)
        (reported read_fault_of result) }
{
    let triple = match load_files(alloc, shelf, command) {
        Ok(triple) => triple,
        Err(status) => return Err(status),
    };
    let run = match run_of(alloc, &triple, &command.options) {
        Ok(run) => run,
        Err(status) => return Err(status),
    };
    match load_schedule_if_any(alloc, shelf, command.schedule, &run) {
        Ok(schedule) => Ok(Instance {
            triple,
            run,
            schedule,
        }),
        Err(failure) => Err(failure.status(InputFile::Schedule)),
    }
}
