ghost use Rattle.std.specs.Prelude.{◌≡◌, [], length, not, IfOk, OnOk};
ghost use Rattle.std.specs.List.{list_any};
ghost use Rattle.stoch_lines.specs.Places.{same_source};
ghost use Rattle.stoch_lines.specs.Sayings.{element_of, with_new};

use crate::places::Source;
use indexmap::IndexSet;
use std::alloc::{AllocError, Global};
use std::marker::Model;

/// The places and blocks of the elements, numbered from 0 in the order in which
/// they came. Contracts see the list of them.
#[derive(Drop)]
pub struct Sources {
    set: IndexSet<Source>,
}

impl Model for Sources {
    ghost use Rattle.std.specs.Prelude.{List};
    ghost use Rattle.stoch_lines.specs.declared.places.Source.{Source};

    ghost Value = { List Source };

    ghost view = { λ sources. sources.set.keys };
}

impl Sources {
    /// No elements. It takes no memory.
    pub fn new(alloc: Global) -> Sources
        ensures { result ≡ [] }
    {
        Sources {
            set: IndexSet::new(alloc),
        }
    }

    /// The number of elements.
    pub fn len(&self) -> usize
        ensures { result ≡ length self.now }
    {
        self.set.len()
    }

    /// The number of an element, or the next where it is new.
    pub fn element_of(&self, source: Source) -> usize
        ensures { result ≡ element_of self.now source }
    {
        match self.set.get_index_of(&source) {
            Some(number) => number,
            None => self.set.len(),
        }
    }

    /// Appends an element, unless it is there, and answers whether it was new.
    pub fn add(&mut self, source: Source) -> Result<bool, AllocError>
        ensures new { IfOk result (λ new. new ≡ not (list_any (same_source source) self.old)) }
        ensures list { OnOk result (self.new ≡ with_new self.old source) }
    {
        let new = self.set.insert(source)?;
        Ok(new)
    }
}
