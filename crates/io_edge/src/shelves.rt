ghost use Rattle.std.specs.Prelude.{◌≡◌, ℕ, List, Option};
ghost use Rattle.io_edge.specs.Faults.{Counts, edge_fault, load_fault};
ghost use Rattle.io_edge.specs.Shelves.{FileTable, LoadGives, StoreLeaves, names_after_load, names_after_store};

use crate::faults::{EdgeFault, LoadFault};
use std::alloc::Global;

/// Where files are loaded from and stored, by name. A shelf may tell its
/// files (`files`) and the names of all loads and stores so far (`names`);
/// `count` is its count of faults, which never falls.
pub trait Shelf {
    ghost files: { Self → Option FileTable };

    ghost names: { Self → Option (List (List ℕ)) };

    ghost count: { Self → ℕ };

    /// The bytes under a name, of which there are at most `limit`.
    ///
    /// `TooLong` comes where there are more, and `Failed` only where a fault
    /// was counted, as it is at a name that isn't there. The files stay.
    /// `Memory` leaves the names and the count too.
    fn load(&mut self, alloc: Global, name: &str, limit: usize) -> Result<Vec<u8>, LoadFault>
        ensures gives { LoadGives (files self.old) name.now limit result }
        ensures files { files self.new ≡ files self.old }
        ensures names { names self.new ≡ names_after_load result (names self.old) name.now }
        ensures count { Counts (count self.old) (count self.new) (load_fault result) };

    /// Makes a name hold these bytes.
    ///
    /// `Failed` comes only where a fault was counted; then the name may hold
    /// anything. All other files stay. `Memory` leaves all as it was.
    fn store(&mut self, name: &str, bytes: &[u8]) -> Result<(), EdgeFault>
        ensures files { StoreLeaves (files self.old) (files self.new) name.now bytes.now result }
        ensures names { names self.new ≡ names_after_store result (names self.old) name.now }
        ensures count { Counts (count self.old) (count self.new) (edge_fault result) };

    /// How many faults there were. It stops at the greatest `u64`.
    fn faults(&self) -> u64
        ensures { result ≡ count self.now };
}
