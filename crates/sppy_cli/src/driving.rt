ghost use Rattle.std.specs.Prelude.{◌≡◌, ◌<ℤ◌, ◌^◌, None, IfSome, neg_ℤ, pos};
ghost use Rattle.io_edge.specs.Faults.{CountsTo};
ghost use Rattle.run_words.specs.declared.command.Action.TheVariants.{Drive};
ghost use Rattle.sppy_cli.specs.Causes.{KeepsAll};
ghost use Rattle.sppy_cli.specs.Statuses.{read_fault_of, reported, write_fault_of};
ghost use Rattle.sppy_cli.specs.Texts.{PutsLog, WritesRest};

use crate::instance::Instance;
use crate::status::Status;
use io_edge::Sink;
use run_log::Log;
use run_text::{TextFault, body};
use schedule_core::{FirstFault, drive};
use sp_model::Run;
use std::alloc::Global;

// Writes the text of a log. Where a put fails or memory is refused, a front of it
// is written, and the answer is the status of the command.
fn put_log<K: Sink>(alloc: Global, out: &mut K, run: &Run, log: &Log) -> Result<(), Status>
    requires lower { neg_ℤ (pos (2 ^ 127)) <ℤ log.now.lower }
    requires upper { IfSome log.now.upper (λ upper. neg_ℤ (pos (2 ^ 127)) <ℤ upper.value) }
    ensures text { PutsLog run.now log.now (K.written out.old) (K.written out.new) result }
    ensures count { CountsTo (K.count out.old) (K.count out.new) (reported write_fault_of result) }
{
    match body(alloc, run, log, out) {
        Ok(()) => Ok(()),
        Err(TextFault::Failed) => Err(Status::WriteFault {
            faults: out.faults(),
        }),
        Err(TextFault::Memory) => Err(Status::Memory),
    }
}

/// Writes what `drive` tells behind the heading: the text of the log that the run
/// has by its schedule.
pub fn write_drive<K: Sink>(alloc: Global, out: &mut K, instance: &Instance) -> Status
    requires { KeepsAll instance.now }
    ensures written { WritesRest Drive instance.now (K.written out.old) (K.written out.new)
        result }
    ensures count { CountsTo (K.count out.old) (K.count out.new) (write_fault_of result) }
    ensures read { read_fault_of result ≡ None }
{
    let log = match drive(alloc, &instance.run, &instance.schedule) {
        Ok(log) => log,
        Err(FirstFault::Infeasible { scenario }) => return Status::Infeasible { scenario },
        Err(FirstFault::Spent { scenario, opened }) => {
            return Status::Spent { scenario, opened };
        }
        Err(FirstFault::Memory) => return Status::Memory,
    };
    match put_log(alloc, out, &instance.run, &log) {
        Ok(()) => Status::Done,
        Err(status) => status,
    }
}
