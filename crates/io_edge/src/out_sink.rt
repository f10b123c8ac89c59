ghost use Rattle.std.specs.Prelude.{◌≡◌};

use crate::faults::EdgeFault;
use crate::sinks::Sink;
use crate::streams::put_counted;
use std::io::Write;

/// A stream of bytes. It doesn't tell what is written, since no contract can
/// say what every stream takes. A fault is an error of the stream, or a write
/// that takes nothing; a `put` counts one at most. The stream isn't flushed.
#[derive(Drop)]
pub struct OutSink<W> {
    out: W,
    faults: u64,
}

impl<W: Write> OutSink<W> {
    ghost use Rattle.io_edge.specs.OutSink.{stream_of};

    /// A stream, and no fault.
    pub fn new(out: W) -> OutSink<W>
        ensures count { ⟦<OutSink<W> as Sink>⟧.count result ≡ 0 }
        ensures stream { stream_of result ≡ out }
    {
        OutSink { out, faults: 0 }
    }
}

impl<W: Write> Sink for OutSink<W> {
    ghost use Rattle.std.specs.Prelude.{None, false};
    ghost use Rattle.io_edge.specs.Faults.{Counts, CountsOne, edge_fault, edge_refused};
    ghost use Rattle.io_edge.specs.OutSink.{PutGoesOut, count_of};
    ghost use Rattle.io_edge.specs.Sinks.{PutLeaves};

    ghost written = { λ _. None };

    ghost count = { λ sink. sink.faults };

    fn put(&mut self, bytes: &[u8]) -> Result<(), EdgeFault>
        ensures written { PutLeaves None None bytes.now result }
        ensures count { Counts (count_of self.old) (count_of self.new) (edge_fault result) }
        ensures one_fault { CountsOne (count_of self.old) (count_of self.new) (edge_fault result) }
        ensures stream { PutGoesOut W.contents self.old self.new bytes.now result }
        ensures never_refused { edge_refused result ≡ false }
    {
        put_counted(&mut self.out, bytes, &mut self.faults)
    }

    fn faults(&self) -> u64 {
        self.faults
    }
}
