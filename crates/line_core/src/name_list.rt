ghost use Rattle.std.specs.Prelude.{◌≡◌, [], ◌<◌, ◌^◌, Some, length, slice_get, IfSome};
ghost use Rattle.std.specs.Option.{option_copied};
ghost use Rattle.line_core.specs.Names.{AddAnswers, AreDistinct, number_of};

use indexmap::IndexSet;
use std::alloc::Global;
use std::marker::Model;

/// Names, each numbered from 0 in the order in which they came. Contracts see
/// the list of the names.
#[derive(Debug, Drop)]
pub struct Names {
    alloc: Global,
    set: IndexSet<Vec<u8>>,
}

impl Model for Names {
    ghost use Rattle.std.specs.Prelude.{List, ℕ, map, length, ◌≤◌, ◌^◌};
    ghost use Rattle.std.specs.List.{IsDistinct};
    ghost use Rattle.std.specs.Str.{bytes_eq};
    ghost use Rattle.std.specs.Coded.{coded_list, coded_ℕ};

    ghost Value = { List (List ℕ) };

    ghost coded = { coded_list (coded_list coded_ℕ) };

    ghost view = { λ names. map (λ name. name.items) names.set.keys };

    ghost invariant = { λ names. (length names.set.keys ≤ 2 ^ 32)
        × IsDistinct (λ one other. bytes_eq one.items other.items) names.set.keys };
}

/// Why a name wasn't added.
#[derive(Clone, Copy, Debug, Drop, PartialEq, Eq)]
pub enum NameFault {
    /// The name is there, with this number.
    Twice { first: u32 },
    /// There was no memory for the name.
    Memory,
}

impl Names {
    /// No names. It takes no memory.
    pub fn new(alloc: Global) -> Names
        ensures { result ≡ [] }
    {
        Names {
            alloc,
            set: IndexSet::new(alloc),
        }
    }

    /// How many names there are. No two of them are the same.
    pub fn len(&self) -> usize
        ensures len { result ≡ length self.now }
        ensures distinct { AreDistinct self.now }
    {
        self.set.len()
    }

    /// The number of a name, if it is there.
    pub fn find(&self, name: &[u8]) -> Option<u32>
        ensures { result ≡ number_of name.now self.now }
    {
        match self.set.get_index_of(name) {
            Some(number) => Some(number as u32),
            None => None,
        }
    }

    /// The name of a number, if there is one. It is found under this number.
    pub fn name(&self, number: u32) -> Option<&[u8]>
        ensures value { option_copied result ≡ slice_get self.now number }
        ensures found { IfSome result (λ name. number_of name.now self.now ≡ Some number) }
    {
        match self.set.get_index(number as usize) {
            Some(name) => Some(name.as_slice()),
            None => None,
        }
    }

    /// Appends a name, and answers its number. `Twice` comes exactly where the
    /// name is there, and `Memory` only where it isn't. After an error the names
    /// are as before.
    pub fn add(&mut self, name: &[u8]) -> Result<u32, NameFault>
        requires { length self.old < 2 ^ 32 }
        ensures { AddAnswers self.old self.new name.now result }
    {
        if let Some(first) = self.find(name) {
            return Err(NameFault::Twice { first });
        }
        let Ok(copy) = Vec::from_slice(self.alloc, name) else {
            return Err(NameFault::Memory);
        };
        let number = self.set.len() as u32;
        let Ok(_) = self.set.insert(copy) else {
            return Err(NameFault::Memory);
        };
        Ok(number)
    }
}
