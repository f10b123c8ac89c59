ghost use Rattle.std.specs.Prelude.{◌≡◌, [], OnErr, OnOk};
ghost use Rattle.std.specs.FinMap as map;
ghost use Rattle.std.specs.Option.{option_copied};
ghost use Rattle.io_edge.specs.Calls.{failing_of};
ghost use Rattle.io_edge.specs.MemoryShelf.{calls_of};

use crate::faults::{EdgeFault, LoadFault};
use crate::memory_shelf::MemoryShelf;
use crate::shelves::Shelf;
use std::alloc::{AllocError, Global};

/// A shelf in memory with no call that is to fail, so that only a load of a
/// name that isn't there fails. It tells its files and its names.
#[derive(Drop)]
pub struct SureShelf {
    shelf: MemoryShelf,
    ghost sure: { failing_of (calls_of shelf) ≡ [] },
}

impl SureShelf {
    ghost use Rattle.io_edge.specs.SureShelf.{IsWithFile, files_of};

    /// A shelf without files, calls and faults. It takes no memory.
    pub fn new(alloc: Global) -> SureShelf
        ensures files { ⟦<SureShelf as Shelf>⟧.files result ≡ Some map.empty }
        ensures names { ⟦<SureShelf as Shelf>⟧.names result ≡ Some [] }
        ensures count { ⟦<SureShelf as Shelf>⟧.count result ≡ 0 }
    {
        SureShelf {
            shelf: MemoryShelf::new(alloc, Vec::new(alloc)),
        }
    }

    /// Makes a name hold these bytes; this is no call. A shelf that is refused
    /// memory stays as it was.
    pub fn add(&mut self, name: &str, bytes: &[u8]) -> Result<(), AllocError>
        ensures ok { OnOk result (IsWithFile self.old name.now bytes.now self.new) }
        ensures err { OnErr result (self.new ≡ self.old) }
    {
        self.shelf.add(name, bytes)
    }

    /// The bytes under a name. None comes exactly where it isn't there.
    pub fn file(&self, name: &str) -> Option<&[u8]>
        ensures { option_copied result ≡ map.get (files_of self.now) name.now }
    {
        self.shelf.file(name)
    }
}

impl Shelf for SureShelf {
    ghost use Rattle.std.specs.Prelude.{Some, false, is_none};
    ghost use Rattle.io_edge.specs.Faults.{Counts, CountsOne, EdgeFailsIf, LoadFailsIf, edge_fault, load_fault};
    ghost use Rattle.io_edge.specs.Shelves.{LoadGives};
    ghost use Rattle.io_edge.specs.SureShelf.{count_of, files_of, told_files, told_names, LoadLeavesNames, StoreLeavesFiles, StoreLeavesNames};

    ghost files = { λ shelf. told_files shelf };

    ghost names = { λ shelf. told_names shelf };

    ghost count = { λ shelf. count_of shelf };

    fn load(&mut self, alloc: Global, name: &str, limit: usize) -> Result<Vec<u8>, LoadFault>
        ensures gives { LoadGives (told_files self.old) name.now limit result }
        ensures files { told_files self.new ≡ told_files self.old }
        ensures names { LoadLeavesNames self.old self.new name.now result }
        ensures count { Counts (count_of self.old) (count_of self.new) (load_fault result) }
        ensures one_fault { CountsOne (count_of self.old) (count_of self.new) (load_fault result) }
        ensures fails { LoadFailsIf (is_none (map.get (files_of self.old) name.now)) result }
    {
        self.shelf.load(alloc, name, limit)
    }

    fn store(&mut self, name: &str, bytes: &[u8]) -> Result<(), EdgeFault>
        ensures files { StoreLeavesFiles self.old self.new name.now bytes.now result }
        ensures names { StoreLeavesNames self.old self.new name.now result }
        ensures count { Counts (count_of self.old) (count_of self.new) (edge_fault result) }
        ensures fails { EdgeFailsIf false result }
    {
        self.shelf.store(name, bytes)
    }

    fn faults(&self) -> u64 {
        self.shelf.faults()
    }
}
