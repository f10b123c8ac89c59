ghost use Rattle.std.specs.Prelude.{◌≡◌, []};

use crate::calls::Calls;
use crate::faults::EdgeFault;
use crate::sinks::Sink;
use std::alloc::Global;

/// A sink in memory that fails at the calls of a list. It tells what is
/// written.
///
/// The calls are its puts, counted from 1; one that is refused memory is no
/// call, and leaves all as it was. A call that fails keeps no byte, and is
/// never refused memory.
#[derive(Drop)]
pub struct MemorySink {
    bytes: Vec<u8>,
    calls: Calls,
}

impl MemorySink {
    ghost use Rattle.io_edge.specs.MemorySink.{calls_of, written_of};
    ghost use Rattle.io_edge.specs.Calls.{no_calls};

    /// A sink without bytes, calls and faults, and the numbers of the calls
    /// that are to fail. It takes no memory.
    pub fn new(alloc: Global, failing: Vec<u64>) -> MemorySink
        ensures written { ⟦<MemorySink as Sink>⟧.written result ≡ Some [] }
        ensures count { ⟦<MemorySink as Sink>⟧.count result ≡ 0 }
        ensures calls { calls_of result ≡ no_calls failing }
    {
        MemorySink {
            bytes: Vec::new(alloc),
            calls: Calls::new(failing),
        }
    }

    /// All that is written.
    pub fn bytes(&self) -> &[u8]
        ensures { result.now ≡ written_of self.now }
    {
        self.bytes.as_slice()
    }
}

impl Sink for MemorySink {
    ghost use Rattle.std.specs.Prelude.{Some, OnErr, false, ◌&&◌};
    ghost use Rattle.io_edge.specs.Faults.{Counts, EdgeFailsIf, edge_fault, edge_refused};
    ghost use Rattle.io_edge.specs.Sinks.{PutLeaves};
    ghost use Rattle.io_edge.specs.MemorySink.{calls_of, count_of, told, written_of};
    ghost use Rattle.io_edge.specs.Calls.{after_edge, fails_next};

    ghost written = { λ sink. told sink };

    ghost count = { λ sink. count_of sink };

    fn put(&mut self, bytes: &[u8]) -> Result<(), EdgeFault>
        ensures written { PutLeaves (told self.old) (told self.new) bytes.now result }
        ensures count { Counts (count_of self.old) (count_of self.new) (edge_fault result) }
        ensures kept { OnErr result (written_of self.new ≡ written_of self.old) }
        ensures fails { EdgeFailsIf (fails_next (calls_of self.old)) result }
        ensures refused { (fails_next (calls_of self.old) && edge_refused result) ≡ false }
        ensures calls { calls_of self.new ≡ after_edge result (calls_of self.old) }
    {
        if self.calls.is_next_failing() {
            self.calls.add_failed();
            return Err(EdgeFault::Failed);
        }
        let Ok(()) = self.bytes.extend_from_slice(bytes) else {
            return Err(EdgeFault::Memory);
        };
        self.calls.add_done();
        Ok(())
    }

    fn faults(&self) -> u64 {
        self.calls.failed()
    }
}
