ghost use Rattle.std.specs.Prelude.{◌≡◌, ◌++◌, ◌∷◌, [], IfOk, OnOk};
ghost use Rattle.scenario_lists.specs.Distinct.{first_of_each, has_place, with_entry};

use indexmap::IndexMap;
use smps_stoch::{StochEntry, StochPlace};
use std::alloc::{AllocError, Global};
use std::marker::Model;
use wide_num::List;

/// Entries with one for each place. Contracts see the list of the entries.
#[derive(Drop)]
struct Kept {
    items: List<StochEntry>,
    places: IndexMap<StochPlace, u64>,
}

impl Model for Kept {
    ghost use Rattle.std.specs.Prelude.{List};
    ghost use Rattle.stoch_lines.specs.declared.places.StochEntry.{StochEntry};
    ghost use Rattle.scenario_lists.specs.Kept.{ArePlaces};

    ghost Value = { List StochEntry };

    ghost view = { λ kept. kept.items };

    ghost invariant = { λ kept. ArePlaces kept.places kept.items };
}

impl Kept {
    // No entries.
    fn new(alloc: Global) -> Kept
        ensures { result ≡ [] }
    {
        Kept {
            items: List::new(alloc),
            places: IndexMap::new(alloc),
        }
    }

    // Whether one of the entries is of this place.
    fn has_place(&self, place: StochPlace) -> bool
        ensures { result ≡ has_place self.now place }
    {
        match self.places.get(&place) {
            Some(_) => true,
            None => false,
        }
    }

    // One more entry.
    fn push(&mut self, entry: StochEntry) -> Result<(), AllocError>
        ensures { OnOk result (self.new ≡ self.old ++ entry ∷ []) }
    {
        self.items.push(entry)?;
        let Ok(_) = self.places.insert(entry.place, entry.line) else {
            let _ = self.items.pop();
            return Err(AllocError);
        };
        Ok(())
    }

    // One more entry, unless its place has one.
    fn add(&mut self, entry: StochEntry) -> Result<(), AllocError>
        ensures { OnOk result (self.new ≡ with_entry self.old entry) }
    {
        if self.has_place(entry.place) {
            return Ok(());
        }
        self.push(entry)
    }

    // The entries.
    fn into_list(self) -> List<StochEntry>
        ensures { result ≡ self }
    {
        let Kept { items, .. } = self;
        items
    }
}

/// The first entry of each place.
#[tactic(auto, unfolding(crate::specs::Distinct::first_of_each))]
pub fn first_of_each(alloc: Global, entries: &[StochEntry]) -> Result<List<StochEntry>, AllocError>
    ensures { IfOk result (λ kept. kept ≡ first_of_each entries.now) }
{
    let mut kept = Kept::new(alloc);
    for entry in entries {
        kept.add(*entry)?;
    }
    Ok(kept.into_list())
}
