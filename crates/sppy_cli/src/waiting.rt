ghost use Rattle.std.specs.Prelude.{◌≡◌, ◌≤◌, ◌^◌, None, unsigned_abs};
ghost use Rattle.io_edge.specs.Faults.{CountsTo};
ghost use Rattle.run_words.specs.declared.command.Action.TheVariants.{Wait};
ghost use Rattle.sppy_cli.specs.Statuses.{read_fault_of, write_fault_of};
ghost use Rattle.sppy_cli.specs.Texts.{PutsBound, WritesRest};
ghost use Rattle.sppy_cli.specs.Statuses.{reported};

use crate::instance::Instance;
use crate::puts::put_lines;
use crate::status::Status;
use io_edge::Sink;
use std::alloc::Global;
use text_lines::{bound_lines, unit};
use wait_and_see::{WaitFault, wait_and_see};

// Writes a bound as the first pair and the last. Where a put fails or memory is
// refused, a front of these lines is written, and the answer is the status of
// the command.
fn put_bound<K: Sink>(
    alloc: Global,
    out: &mut K,
    instance: &Instance,
    bound: i128,
) -> Result<(), Status>
    requires { unsigned_abs bound ≤ 2 ^ 120 }
    ensures text { PutsBound instance.now bound (K.written out.old) (K.written out.new) result }
    ensures count { CountsTo (K.count out.old) (K.count out.new) (reported write_fault_of result) }
{
    let Ok(lines) = bound_lines(alloc, bound, unit(&instance.run)) else {
        return Err(Status::Memory);
    };
    put_lines(out, &lines)
}

/// Writes what `wait` tells behind the heading: the wait-and-see bound of the
/// run, as the first pair and the last.
pub fn write_wait<K: Sink>(alloc: Global, out: &mut K, instance: &Instance) -> Status
    ensures written { WritesRest Wait instance.now (K.written out.old) (K.written out.new) result }
    ensures count { CountsTo (K.count out.old) (K.count out.new) (write_fault_of result) }
    ensures read { read_fault_of result ≡ None }
{
    let bound = match wait_and_see(alloc, &instance.run) {
        Ok(bound) => bound,
        Err(WaitFault::Infeasible { scenario }) => return Status::Infeasible { scenario },
        Err(WaitFault::Spent { scenario, opened }) => {
            return Status::Spent { scenario, opened };
        }
        Err(WaitFault::Memory) => return Status::Memory,
    };
    match put_bound(alloc, out, instance, bound) {
        Ok(()) => Status::Done,
        Err(status) => status,
    }
}
