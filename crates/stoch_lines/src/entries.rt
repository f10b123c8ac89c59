ghost use Rattle.std.specs.Prelude.{◌≡◌, ◌∷◌, ◌++◌, [], OnOk};
ghost use Rattle.stoch_lines.specs.Faults.{is_taken, is_given};

use crate::places::{StochEntry, StochPlace};
use indexmap::IndexMap;
use std::alloc::{AllocError, Global};
use std::marker::Model;
use wide_num::List;

/// An entry of a realisation of an element, or of a scenario, counted from 0.
/// In a scenario the element is 0.
#[derive(Clone, Copy, Debug, Drop, PartialEq, Eq)]
pub struct Owned {
    pub element: usize,
    pub choice: usize,
    pub entry: StochEntry,
}

/// The element and the realisation of a place's last entry.
#[derive(Clone, Copy, Debug, Drop)]
pub struct Mark {
    pub element: usize,
    pub choice: usize,
}

/// The entries of a file, with the last one of each place at hand. Contracts
/// see the list of the entries.
#[derive(Drop)]
pub struct Entries {
    items: List<Owned>,
    marks: IndexMap<StochPlace, Mark>,
}

impl Model for Entries {
    ghost use Rattle.std.specs.Prelude.{List};
    ghost use Rattle.stoch_lines.specs.declared.entries.Owned.{Owned};
    ghost use Rattle.stoch_lines.specs.Marks.{AreMarked};

    ghost Value = { List Owned };

    ghost view = { λ entries. entries.items };

    ghost invariant = { λ entries. AreMarked entries.marks entries.items };
}

impl Entries {
    /// No entries. It takes no memory.
    pub fn new(alloc: Global) -> Entries
        ensures { result ≡ [] }
    {
        Entries {
            items: List::new(alloc),
            marks: IndexMap::new(alloc),
        }
    }

    /// Whether a place belongs to another element.
    pub fn is_taken(&self, element: usize, place: StochPlace) -> bool
        ensures { result ≡ is_taken self.now element place }
    {
        match self.marks.get(&place) {
            Some(mark) => mark.element != element,
            None => false,
        }
    }

    /// Whether a place stands already in this realisation or scenario, the last.
    pub fn is_given(&self, choice: usize, place: StochPlace) -> bool
        ensures { result ≡ is_given self.now choice place }
    {
        match self.marks.get(&place) {
            Some(mark) => mark.choice == choice,
            None => false,
        }
    }

    /// Appends an entry.
    pub fn push(&mut self, owned: Owned) -> Result<(), AllocError>
        ensures { OnOk result (self.new ≡ self.old ++ owned ∷ []) }
    {
        self.items.push(owned)?;
        let mark = Mark {
            element: owned.element,
            choice: owned.choice,
        };
        let Ok(_) = self.marks.insert(owned.entry.place, mark) else {
            let _ = self.items.pop();
            return Err(AllocError);
        };
        Ok(())
    }

    /// The entries. It takes no memory.
    pub fn into_list(self) -> List<Owned>
        ensures { result ≡ self }
    {
        let Entries { items, .. } = self;
        items
    }
}
