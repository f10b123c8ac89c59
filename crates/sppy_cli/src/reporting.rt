ghost use Rattle.std.specs.Prelude.{◌≢◌, OnErr};
ghost use Rattle.io_edge.specs.Faults.{Counts, edge_fault};
ghost use Rattle.io_edge.specs.Sinks.{PutLeaves};
ghost use Rattle.sppy_cli.specs.Statuses.{status_line};

use crate::status::Status;
use io_edge::{EdgeFault, Sink};
use std::alloc::Global;

/// Writes the line of a status by one put; of Done, which has none, nothing.
pub fn report<K: Sink>(alloc: Global, status: &Status, out: &mut K) -> Result<(), EdgeFault>
    ensures line { PutLeaves (K.written out.old) (K.written out.new) (status_line status.now)
        result }
    ensures done { OnErr result (status.now ≢ Status.Done) }
    ensures count { Counts (K.count out.old) (K.count out.new) (edge_fault result) }
{
    let Ok(line) = status.line(alloc) else {
        return Err(EdgeFault::Memory);
    };
    if line.len() == 0 {
        return Ok(());
    }
    out.put(line.as_slice())
}
