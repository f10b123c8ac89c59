ghost use Rattle.std.specs.Prelude.{◌≡◌, OnErr, OnOk, Some, is_none, true};
ghost use Rattle.std.specs.FinMap as map;
ghost use Rattle.std.specs.Option.{option_copied};
ghost use Rattle.io_edge.specs.Faults.{LoadFailsIf, load_refused};
ghost use Rattle.io_edge.specs.Shelves.{AsksMemory, LoadGives};

use crate::faults::LoadFault;
use std::alloc::{AllocError, Global};
use std::collections::VecDeque;
use std::marker::Model;
use wide_num::{List, Text};

// What was stored under names, the newest first. Contracts see the map from a
// name to what was stored last.
#[derive(Drop)]
pub struct FileLog {
    log: VecDeque<(Text, Text)>,
}

impl Model for FileLog {
    ghost use Rattle.std.specs.Coded.{coded_list, coded_ℕ};
    ghost use Rattle.std.specs.FinMap as map;
    ghost use Rattle.io_edge.specs.Shelves.{FileTable};

    ghost Value = { FileTable };

    ghost coded = { map.code (coded_list coded_ℕ) (coded_list coded_ℕ) };

    ghost view = { λ files. map.from_entries files.log.items };
}

impl FileLog {
    pub fn new(alloc: Global) -> FileLog
        ensures { result ≡ map.empty }
    {
        FileLog {
            log: VecDeque::new(alloc),
        }
    }

    pub fn insert(&mut self, name: Text, bytes: Text) -> Result<(), AllocError>
        ensures ok { OnOk result (self.new ≡ map.insert self.old name bytes) }
        ensures err { OnErr result (self.new ≡ self.old) }
    {
        self.log.push_front((name, bytes))?;
        Ok(())
    }

    // Goes from the newest on, so the time grows with the log.
    #[tactic(auto, using(crate::proofs::NameOrder::names_alike))]
    pub fn get(&self, name: &[u8]) -> Option<&[u8]>
        ensures { option_copied result ≡ map.get self.now name.now }
    {
        for (known, bytes) in &self.log {
            if name == known.as_slice() {
                return Some(bytes.as_slice());
            }
        }
        None
    }

    // A copy of the bytes under a name, of which there are at most `limit`.
    pub fn load(&self, alloc: Global, name: &[u8], limit: usize) -> Result<Vec<u8>, LoadFault>
        ensures gives { LoadGives (Some self.now) name.now limit result }
        ensures fails { LoadFailsIf (is_none (map.get self.now name.now)) result }
        ensures refused { load_refused result ≡ true → AsksMemory self.now name.now limit }
    {
        let Some(bytes) = self.get(name) else {
            return Err(LoadFault::Failed);
        };
        if limit < bytes.len() {
            return Err(LoadFault::TooLong);
        }
        let Ok(copy) = List::from_slice(alloc, bytes) else {
            return Err(LoadFault::Memory);
        };
        Ok(copy.into_vec())
    }
}
