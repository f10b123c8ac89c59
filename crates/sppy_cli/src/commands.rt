ghost use Rattle.std.specs.Prelude.{◌≡◌, ◌↔◌, None, map, string_bytes};
ghost use Rattle.io_edge.specs.Faults.{CountsTo};
ghost use Rattle.run_words.specs.Words.{command_of};
ghost use Rattle.sppy_cli.specs.Causes.{KeepsAll};
ghost use Rattle.sppy_cli.specs.Complete.{Completes, RefusesAsked};
ghost use Rattle.sppy_cli.specs.Desk.{Answers};
ghost use Rattle.sppy_cli.specs.InTurn.{LoadsNames};
ghost use Rattle.sppy_cli.specs.Statuses.{read_fault_of, write_fault_of};
ghost use Rattle.sppy_cli.specs.Texts.{Writes, WritesRest};

use crate::driving::write_drive;
use crate::instance::Instance;
use crate::puts::put_heading;
use crate::reading::load_instance;
use crate::showing::write_show;
use crate::status::Status;
use crate::waiting::write_wait;
use io_edge::{Shelf, Sink};
use run_words::{Action, read_words};
use std::alloc::Global;

// Writes what a command tells behind the heading.
fn write_rest<K: Sink>(alloc: Global, out: &mut K, action: Action, instance: &Instance) -> Status
    requires { KeepsAll instance.now }
    ensures written { WritesRest action instance.now (K.written out.old) (K.written out.new)
        result }
    ensures count { CountsTo (K.count out.old) (K.count out.new) (write_fault_of result) }
    ensures read { read_fault_of result ≡ None }
{
    match action {
        Action::Wait => write_wait(alloc, out, instance),
        Action::Show => write_show(alloc, out, instance),
        Action::Drive => write_drive(alloc, out, instance),
    }
}

// Writes the text of a command.
fn write_text<K: Sink>(alloc: Global, out: &mut K, action: Action, instance: &Instance) -> Status
    requires { KeepsAll instance.now }
    ensures written { Writes action instance.now (K.written out.old) (K.written out.new) result }
    ensures count { CountsTo (K.count out.old) (K.count out.new) (write_fault_of result) }
    ensures read { read_fault_of result ≡ None }
{
    match put_heading(alloc, out, instance) {
        Ok(()) => write_rest(alloc, out, action, instance),
        Err(status) => status,
    }
}

/// Does what the words ask for: loads the files from the shelf, writes the
/// text to the sink, and answers how it ended. It waits for nobody.
///
/// Where the shelf tells its files, `answers` says why each status comes; where
/// the sink tells what is written, it says what was written then.
pub fn desk<S: Shelf, K: Sink>(
    alloc: Global,
    words: &[String],
    shelf: &mut S,
    out: &mut K,
) -> Status
    // the words are refused exactly where they aren't well formed
    ensures words { (result ≡ Status.Words) ↔ (command_of (map string_bytes words.now) ≡ None) }

    // why the status comes, and what was written: the text of the run, a front of it, or nothing
    ensures answers { Answers (S.files shelf.old) (command_of (map string_bytes words.now))
        (K.written out.old) (K.written out.new) result }

    // a cause why the files make no run, or the schedule fits none, is the one that is answered
    ensures refuses { RefusesAsked (S.files shelf.old) (command_of (map string_bytes words.now))
        result }

    // where the files make a run, the schedule fits it, and no fault is counted, the command ends
    // by its run
    ensures complete { Completes (S.files shelf.old) (command_of (map string_bytes words.now))
        (S.count shelf.old) (S.count shelf.new) (K.count out.old) (K.count out.new) result }

    // a fault is answered only where it was counted, and none is passed over
    ensures reads { CountsTo (S.count shelf.old) (S.count shelf.new) (read_fault_of result) }
    ensures writes { CountsTo (K.count out.old) (K.count out.new) (write_fault_of result) }

    // the command's files are loaded in turn, each only after those before it have no fault
    ensures names { LoadsNames (S.files shelf.old) (command_of (map string_bytes words.now))
        (S.names shelf.old) (S.names shelf.new) result }

    // nothing is stored
    ensures files { S.files shelf.new ≡ S.files shelf.old }
{
    let Some(command) = read_words(words) else {
        return Status::Words;
    };
    match load_instance(alloc, shelf, &command) {
        Ok(instance) => write_text(alloc, out, command.action, &instance),
        Err(status) => status,
    }
}
