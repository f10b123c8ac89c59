ghost use Rattle.std.specs.Prelude.{◌≡◌, ◌++◌, ◌∷◌, [], ◌<◌, ◌≤◌, length, true, IfErr, IfOk, OnOk};
ghost use Rattle.std.specs.List.{All, Any};
ghost use Rattle.join_words.specs.Parts.{parts_of};
ghost use Rattle.join_words.specs.Powers.{stays};
ghost use Rattle.join_words.specs.RunOf.{entries_of, entry_of};
ghost use Rattle.join_numbers.specs.Turning.{with_entry};
ghost use Rattle.join_numbers.specs.UnfitNumbers.{ByUnfit, IsLargeEntry};

use crate::fault::MakeFault;
use crate::sizes::scaled_number;
use boxed_problem::Entry;
use join_frame::is_idle;
use join_words::Frame;
use smps_words::{Core, CoreEntry};
use std::alloc::Global;
use wide_num::List;

// One more entry that stays.
fn push_scaled(entries: &mut List<Entry>, frame: &Frame, entry: &CoreEntry) -> Result<(), MakeFault>
    requires row { entry.now.row < length frame.now.row_places }
    requires places { All (λ p. p ≤ 9) frame.now.row_places }
    ensures ok { OnOk result (entries.new ≡ entries.old ++ entry_of frame.now entry.now ∷ []) }
    ensures err { IfErr result (ByUnfit (IsLargeEntry (entry_of frame.now entry.now))) }
{
    let places = frame.row_places.as_slice()[entry.row as usize];
    match scaled_number(entry.value, places) {
        None => Err(MakeFault::Unfit),
        Some(value) => {
            entries.push(Entry {
                row: entry.row,
                column: entry.column,
                value,
            })?;
            Ok(())
        }
    }
}

// One more entry, unless its column leaves the run.
fn push(entries: &mut List<Entry>, frame: &Frame, entry: &CoreEntry) -> Result<(), MakeFault>
    requires row { entry.now.row < length frame.now.row_places }
    requires column { entry.now.column < length frame.now.sides }
    requires places { All (λ p. p ≤ 9) frame.now.row_places }
    ensures ok { OnOk result (entries.new ≡ with_entry frame.now entries.old entry.now) }
    ensures err { IfErr result
        (ByUnfit
        ((stays frame.now.sides entry.now.column ≡ true)
        × IsLargeEntry (entry_of frame.now entry.now))) }
{
    if is_idle(&frame.sides, entry.column as usize) {
        return Ok(());
    }
    push_scaled(entries, frame, entry)
}

/// The entries of the run.
pub fn entries(alloc: Global, core: &Core, frame: &Frame) -> Result<List<Entry>, MakeFault>
    requires rows { length frame.now.row_places ≡ length core.now.rows }
    requires columns { length frame.now.sides ≡ length core.now.columns }
    requires places { All (λ p. p ≤ 9) frame.now.row_places }
    ensures ok { IfOk result (λ entries. entries ≡ entries_of (parts_of core.now) frame.now) }
    ensures err { IfErr result
        (ByUnfit (Any IsLargeEntry (entries_of (parts_of core.now) frame.now))) }
{
    let mut entries = List::new(alloc);
    for entry in core.entries.as_slice() {
        push(&mut entries, frame, entry)?;
    }
    Ok(entries)
}
