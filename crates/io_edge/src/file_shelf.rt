ghost use Rattle.std.specs.Prelude.{◌≡◌};

use crate::faults::{EdgeFault, LoadFault};
use crate::shelves::Shelf;
use crate::streams::{counted, put_counted, read_counted};
use std::alloc::Global;
use std::fs;
use std::rt::Files;

/// The files of a runtime, by their paths. It tells neither files nor names,
/// since no contract can say what a file holds. A fault is an error of the
/// runtime, or a write that takes nothing.
#[derive(Drop)]
pub struct FileShelf<'a, R> {
    rt: &'a R,
    faults: u64,
}

impl<'a, R: Files> FileShelf<'a, R> {
    /// The files of a runtime, and no fault.
    pub fn new(rt: &'a R) -> FileShelf<'a, R>
        ensures { ⟦<FileShelf<'a, R> as Shelf>⟧.count result ≡ 0 }
    {
        FileShelf { rt, faults: 0 }
    }
}

impl<'a, R: Files> Shelf for FileShelf<'a, R> {
    ghost use Rattle.std.specs.Prelude.{false};
    ghost use Rattle.io_edge.specs.Faults.{Counts, CountsOne, edge_fault, edge_refused, load_fault};
    ghost use Rattle.io_edge.specs.FileShelf.{count_of, files_of, names_of, StoreLeavesFiles};
    ghost use Rattle.io_edge.specs.Shelves.{LoadGives, names_after_load, names_after_store};

    ghost files = { λ shelf. files_of shelf };

    ghost names = { λ shelf. names_of shelf };

    ghost count = { λ shelf. count_of shelf };

    fn load(&mut self, alloc: Global, name: &str, limit: usize) -> Result<Vec<u8>, LoadFault>
        ensures gives { LoadGives (files_of self.old) name.now limit result }
        ensures files { files_of self.new ≡ files_of self.old }
        ensures names { names_of self.new ≡ names_after_load result (names_of self.old) name.now }
        ensures count { Counts (count_of self.old) (count_of self.new) (load_fault result) }
        ensures one_fault { CountsOne (count_of self.old) (count_of self.new) (load_fault result) }
    {
        let Some(mut file) = counted(fs::open(self.rt, name), &mut self.faults) else {
            return Err(LoadFault::Failed);
        };
        read_counted(alloc, &mut file, limit, &mut self.faults)
    }

    fn store(&mut self, name: &str, bytes: &[u8]) -> Result<(), EdgeFault>
        ensures files { StoreLeavesFiles self.old self.new name.now bytes.now result }
        ensures names { names_of self.new ≡ names_after_store result (names_of self.old) name.now }
        ensures count { Counts (count_of self.old) (count_of self.new) (edge_fault result) }
        ensures one_fault { CountsOne (count_of self.old) (count_of self.new) (edge_fault result) }
        ensures never_refused { edge_refused result ≡ false }
    {
        let Some(mut file) = counted(fs::create(self.rt, name), &mut self.faults) else {
            return Err(EdgeFault::Failed);
        };
        put_counted(&mut file, bytes, &mut self.faults)
    }

    fn faults(&self) -> u64 {
        self.faults
    }
}
