ghost use Rattle.std.specs.Prelude.{◌≡◌, [], OnErr, OnOk};
ghost use Rattle.std.specs.FinMap as map;
ghost use Rattle.std.specs.Option.{option_copied};

use crate::call_names::push_name;
use crate::calls::Calls;
use crate::faults::{EdgeFault, LoadFault};
use crate::file_log::FileLog;
use crate::shelves::Shelf;
use std::alloc::{AllocError, Global};
use wide_num::{List, Text};

/// A shelf in memory that fails at the calls of a list, and at a load of a
/// name that isn't there. It tells its files and its names.
///
/// The calls are its loads and stores, counted from 1; one that is refused
/// memory is no call, and leaves all as it was. A call that fails leaves the
/// files. It asks for memory too, for its name.
#[derive(Drop)]
pub struct MemoryShelf {
    alloc: Global,
    files: FileLog,
    names: List<Text>,
    calls: Calls,
}

impl MemoryShelf {
    ghost use Rattle.io_edge.specs.MemoryShelf.{calls_of, files_of, with_file};
    ghost use Rattle.io_edge.specs.Calls.{no_calls};

    /// A shelf without files, calls and faults, and the numbers of the calls
    /// that are to fail. It takes no memory.
    pub fn new(alloc: Global, failing: Vec<u64>) -> MemoryShelf
        ensures files { ⟦<MemoryShelf as Shelf>⟧.files result ≡ Some map.empty }
        ensures names { ⟦<MemoryShelf as Shelf>⟧.names result ≡ Some [] }
        ensures count { ⟦<MemoryShelf as Shelf>⟧.count result ≡ 0 }
        ensures calls { calls_of result ≡ no_calls failing }
    {
        MemoryShelf {
            alloc,
            files: FileLog::new(alloc),
            names: List::new(alloc),
            calls: Calls::new(failing),
        }
    }

    /// Makes a name hold these bytes; this is no call. A shelf that is refused
    /// memory stays as it was.
    pub fn add(&mut self, name: &str, bytes: &[u8]) -> Result<(), AllocError>
        ensures ok { OnOk result (self.new ≡ with_file self.old name.now bytes.now) }
        ensures err { OnErr result (self.new ≡ self.old) }
    {
        let Ok(key) = List::from_slice(self.alloc, name.as_bytes()) else {
            return Err(AllocError);
        };
        let Ok(copy) = List::from_slice(self.alloc, bytes) else {
            return Err(AllocError);
        };
        self.files.insert(key, copy)
    }

    /// The bytes under a name. None comes exactly where it isn't there.
    pub fn file(&self, name: &str) -> Option<&[u8]>
        ensures { option_copied result ≡ map.get (files_of self.now) name.now }
    {
        self.files.get(name.as_bytes())
    }
}

impl Shelf for MemoryShelf {
    ghost use Rattle.std.specs.Prelude.{Some};
    ghost use Rattle.io_edge.specs.Faults.{Counts, EdgeFailsIf, LoadFailsIf, edge_fault, load_fault};
    ghost use Rattle.io_edge.specs.Shelves.{LoadGives};
    ghost use Rattle.io_edge.specs.MemoryShelf.{calls_of, count_of, fails_load, files_of, told_files, told_names, LoadLeavesNames, StoreLeavesFiles, StoreLeavesNames};
    ghost use Rattle.io_edge.specs.Calls.{after_edge, after_load, fails_next};

    ghost files = { λ shelf. told_files shelf };

    ghost names = { λ shelf. told_names shelf };

    ghost count = { λ shelf. count_of shelf };

    fn load(&mut self, alloc: Global, name: &str, limit: usize) -> Result<Vec<u8>, LoadFault>
        ensures gives { LoadGives (told_files self.old) name.now limit result }
        ensures files { told_files self.new ≡ told_files self.old }
        ensures names { LoadLeavesNames self.old self.new name.now result }
        ensures count { Counts (count_of self.old) (count_of self.new) (load_fault result) }
        ensures fails { LoadFailsIf (fails_load self.old name.now) result }
        ensures calls { calls_of self.new ≡ after_load result (calls_of self.old) }
    {
        let answer = if self.calls.is_next_failing() {
            Err(LoadFault::Failed)
        } else {
            self.files.load(alloc, name.as_bytes(), limit)
        };
        if let Err(LoadFault::Memory) = answer {
            return Err(LoadFault::Memory);
        }
        let Ok(()) = push_name(self.alloc, &mut self.names, name) else {
            return Err(LoadFault::Memory);
        };
        match answer {
            Err(LoadFault::Failed) => self.calls.add_failed(),
            _ => self.calls.add_done(),
        }
        answer
    }

    fn store(&mut self, name: &str, bytes: &[u8]) -> Result<(), EdgeFault>
        ensures files { StoreLeavesFiles self.old self.new name.now bytes.now result }
        ensures names { StoreLeavesNames self.old self.new name.now result }
        ensures count { Counts (count_of self.old) (count_of self.new) (edge_fault result) }
        ensures kept { OnErr result (files_of self.new ≡ files_of self.old) }
        ensures fails { EdgeFailsIf (fails_next (calls_of self.old)) result }
        ensures calls { calls_of self.new ≡ after_edge result (calls_of self.old) }
    {
        let Ok(()) = push_name(self.alloc, &mut self.names, name) else {
            return Err(EdgeFault::Memory);
        };
        if self.calls.is_next_failing() {
            self.calls.add_failed();
            return Err(EdgeFault::Failed);
        }
        let Ok(()) = self.add(name, bytes) else {
            let _name = self.names.pop();
            return Err(EdgeFault::Memory);
        };
        self.calls.add_done();
        Ok(())
    }

    fn faults(&self) -> u64 {
        self.calls.failed()
    }
}
