//! Bounds for stochastic programs in whole numbers: the program `sppy`.
//!
//! `wait CORE TIME STOCH [OPTION NUMBER]..` prints the wait-and-see bound, `show` with
//! the same words what the files make, and `drive CORE TIME STOCH SCHEDULE --xhat 0
//! [OPTION NUMBER]..` each bound that a run by this schedule reaches.
#![tactic(auto)]

ghost use Rattle.std.specs.Prelude.{◌≡◌, ◌≢◌, ◌↔◌, IfErr, IfOk, None, OnErr, drop, map, string_bytes};
ghost use Rattle.std.specs.Process.{exit_status};
ghost use Rattle.io_edge.specs.Faults.{Counts, CountsTo, edge_fault};
ghost use Rattle.io_edge.specs.Sinks.{PutLeaves};
ghost use Rattle.run_words.specs.Words.{command_of};
ghost use Rattle.sppy_cli.specs.Complete.{Completes, RefusesAsked};
ghost use Rattle.sppy_cli.specs.Desk.{Answers};
ghost use Rattle.sppy_cli.specs.InTurn.{LoadsNames};
ghost use Rattle.sppy_cli.specs.Statuses.{code_of, read_fault_of, status_line, write_fault_of};
ghost use Rattle.sppy.specs.Given.{IsOfWords};
ghost use Rattle.std.specs.Vec.Iter.{into_iter_items};

use io_edge::{EdgeFault, FileShelf, OutSink, Shelf, Sink};
use sppy_cli::{Status, desk, report};
use std::alloc::Global;
use std::env::Args;
use std::io::ErrorKind;
use std::process::ExitCode;
use std::{env, io};

// The status where the words aren't given: one of them isn't text, or memory was refused.
fn words_status(kind: ErrorKind) -> Status
    ensures memory { kind ≡ ErrorKind.OutOfMemory → result ≡ Status.Memory }
    ensures words { kind ≢ ErrorKind.OutOfMemory → result ≡ Status.Words }
{
    match kind {
        ErrorKind::OutOfMemory => Status::Memory,
        _ => Status::Words,
    }
}

// The words behind the first, which is the program's own name. Memory alone can be wanting.
fn words_behind(alloc: Global, mut given: Args) -> Result<Vec<String>, Status>
    ensures words { IfOk result (λ words. words.items ≡ drop 1 (into_iter_items given)) }
    ensures memory { IfErr result (λ status. status ≡ Status.Memory) }
{
    let _program = given.next();
    let mut words = Vec::new(alloc);
    for word in given {
        if words.push(word).is_err() {
            return Err(Status::Memory);
        }
    }
    Ok(words)
}

// The words that the program was given, without its own name.
fn given_words(rt: &HostRuntime) -> Result<Vec<String>, Status>
    ensures { IfErr result IsOfWords }
{
    match env::args(rt) {
        Ok(given) => words_behind(rt.alloc(), given),
        Err(error) => Err(words_status(error.kind())),
    }
}

// Runs the command where words were given, else answers why not, and then
// nothing is loaded or written. The clauses on given words are those of `desk`.
fn run_command<S: Shelf, K: Sink>(
    alloc: Global,
    given: Result<Vec<String>, Status>,
    shelf: &mut S,
    out: &mut K,
) -> Status
    requires { IfErr given IsOfWords }
    ensures refused { IfErr given (λ status. result ≡ status) }
    ensures shelf { OnErr given (shelf.new ≡ shelf.old) }
    ensures out { OnErr given (out.new ≡ out.old) }
    ensures words { IfOk given (λ words. (result ≡ Status.Words)
        ↔ (command_of (map string_bytes words.items) ≡ None)) }
    ensures answers { IfOk given (λ words. Answers (S.files shelf.old)
        (command_of (map string_bytes words.items)) (K.written out.old) (K.written out.new)
        result) }
    ensures refuses { IfOk given (λ words. RefusesAsked (S.files shelf.old)
        (command_of (map string_bytes words.items)) result) }
    ensures complete { IfOk given (λ words. Completes (S.files shelf.old)
        (command_of (map string_bytes words.items)) (S.count shelf.old) (S.count shelf.new)
        (K.count out.old) (K.count out.new) result) }
    ensures names { IfOk given (λ words. LoadsNames (S.files shelf.old)
        (command_of (map string_bytes words.items)) (S.names shelf.old) (S.names shelf.new)
        result) }
    ensures files { S.files shelf.new ≡ S.files shelf.old }
    ensures reads { CountsTo (S.count shelf.old) (S.count shelf.new) (read_fault_of result) }
    ensures writes { CountsTo (K.count out.old) (K.count out.new) (write_fault_of result) }
{
    match given {
        Ok(words) => desk(alloc, &words, shelf, out),
        Err(status) => status,
    }
}

// Writes the line of a status. Gives its exit code, and what became of the line: it was
// written whole, or a put failed and was counted, or memory was refused.
fn finish<K: Sink>(alloc: Global, status: &Status, err: &mut K) -> (ExitCode, Result<(), EdgeFault>)
    ensures code { exit_status result.0 ≡ code_of status.now }
    ensures line { PutLeaves (K.written err.old) (K.written err.new) (status_line status.now)
        result.1 }
    ensures done { OnErr result.1 (status.now ≢ Status.Done) }
    ensures count { Counts (K.count err.old) (K.count err.new) (edge_fault result.1) }
{
    let told = report(alloc, status, err);
    (exit_code(status), told)
}

// The exit code of a status.
fn exit_code(status: &Status) -> ExitCode
    ensures { exit_status result ≡ code_of status.now }
{
    ExitCode::from(status.code())
}

fn main(rt: HostRuntime) -> ExitCode {
    let mut shelf = FileShelf::new(&rt);
    let mut out = OutSink::new(io::writer(&rt));
    let mut err = OutSink::new(rt.stderr());
    let given = given_words(&rt);
    let status = run_command(rt.alloc(), given, &mut shelf, &mut out);
    let (code, _told) = finish(rt.alloc(), &status, &mut err);
    code
}
