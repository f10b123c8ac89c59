ghost use Rattle.std.specs.Prelude.{◌≡◌, []};
ghost use Rattle.io_edge.specs.Calls.{failing_of};
ghost use Rattle.io_edge.specs.MemorySink.{calls_of, count_of};

use crate::faults::EdgeFault;
use crate::memory_sink::MemorySink;
use crate::sinks::Sink;
use std::alloc::Global;

/// A sink in memory with no put that is to fail. It tells what is written.
#[derive(Drop)]
pub struct SureSink {
    sink: MemorySink,
    ghost sure: { failing_of (calls_of sink) ≡ [] },
    ghost none_failed: { count_of sink ≡ 0 },
}

impl SureSink {
    ghost use Rattle.io_edge.specs.SureSink.{written_of};

    /// A sink without bytes. It takes no memory.
    pub fn new(alloc: Global) -> SureSink
        ensures { ⟦<SureSink as Sink>⟧.written result ≡ Some [] }
    {
        SureSink {
            sink: MemorySink::new(alloc, Vec::new(alloc)),
        }
    }

    /// All that is written.
    pub fn bytes(&self) -> &[u8]
        ensures { result.now ≡ written_of self.now }
    {
        self.sink.bytes()
    }
}

impl Sink for SureSink {
    ghost use Rattle.std.specs.Prelude.{Some, false};
    ghost use Rattle.io_edge.specs.Faults.{Counts, EdgeFailsIf, edge_fault};
    ghost use Rattle.io_edge.specs.Sinks.{PutLeaves};
    ghost use Rattle.io_edge.specs.SureSink.{told, written_of};

    ghost written = { λ sink. told sink };

    ghost count = { λ _. 0 };

    fn put(&mut self, bytes: &[u8]) -> Result<(), EdgeFault>
        ensures written { PutLeaves (told self.old) (told self.new) bytes.now result }
        ensures count { Counts 0 0 (edge_fault result) }
        ensures fails { EdgeFailsIf false result }
    {
        self.sink.put(bytes)
    }

    fn faults(&self) -> u64 {
        self.sink.faults()
    }
}
