ghost use Rattle.std.specs.Prelude.{◌≡◌, ◌<◌, ℕ, List, Option, length};
ghost use Rattle.io_edge.specs.Faults.{Counts, edge_fault};
ghost use Rattle.io_edge.specs.Sinks.{PutLeaves};

use crate::faults::EdgeFault;

/// Where bytes are written, one piece after the other. A sink may tell all
/// that is written (`written`); `count` is its count of faults, which never
/// falls.
pub trait Sink {
    ghost written: { Self → Option (List ℕ) };

    ghost count: { Self → ℕ };

    /// Writes a piece, which isn't empty.
    ///
    /// `Failed` comes only where a fault was counted; then a front of the
    /// piece is written. `Memory` leaves all as it was.
    fn put(&mut self, bytes: &[u8]) -> Result<(), EdgeFault>
        requires { 0 < length bytes.now }
        ensures written { PutLeaves (written self.old) (written self.new) bytes.now result }
        ensures count { Counts (count self.old) (count self.new) (edge_fault result) };

    /// How many faults there were. It stops at the greatest `u64`.
    fn faults(&self) -> u64
        ensures { result ≡ count self.now };
}
