ghost use Rattle.std.specs.Prelude.{◌≡◌, ◌<◌, Some, None, max, map, if◌then◌else◌, slice_index, slice_set, length, IfOk, IfSome};
ghost use Rattle.std.specs.List.{All, range_with_len};
ghost use Rattle.dec_core.specs.Scale.{common_places};
ghost use Rattle.smps_words.specs.declared.core_data.CoreEntry.{CoreEntry};
ghost use Rattle.smps_words.specs.declared.core_data.CoreRow.{CoreRow};
ghost use Rattle.stoch_lines.specs.declared.places.StochEntry.{StochEntry};
ghost use Rattle.join_frame.specs.LiveRows.{live_row_of_entry, live_row_of_place, raised_at};
ghost use Rattle.join_frame.specs.Naming.{IsNamed, IsRowNamed};
ghost use Rattle.join_words.specs.Parts.{parts_of};
ghost use Rattle.join_words.specs.Powers.{core_row_numbers, own_numbers, row_places};

use crate::boxes::is_idle;
use crate::costs::raised;
use boxed_problem::Side;
use dec_core::Decimal;
use smps_stoch::{StochEntry, StochPlace};
use smps_words::{Core, CoreEntry, CoreRow};
use std::alloc::{AllocError, Global};
use wide_num::List;

// The row in which a place stays in the run.
fn live_row_of_place(sides: &List<Side>, place: StochPlace) -> Option<u32>
    requires { IsNamed sides.now place }
    ensures { result ≡ live_row_of_place sides.now place }
{
    match place {
        StochPlace::Cost(_) => None,
        StochPlace::Cell(row, column) => {
            if is_idle(sides, column as usize) {
                None
            } else {
                Some(row)
            }
        }
        StochPlace::Right(row) => Some(row),
    }
}

// The row in which an entry of the core stays in the run.
fn live_row_of_entry(sides: &List<Side>, entry: &CoreEntry) -> Option<u32>
    requires { entry.now.column < length sides.now }
    ensures { result ≡ live_row_of_entry sides.now entry.now }
{
    if is_idle(sides, entry.column as usize) {
        None
    } else {
        Some(entry.row)
    }
}

// The places of a row's right-hand side and range.
fn own_places(row: &CoreRow) -> u8
    ensures { result ≡ common_places (own_numbers row.now) }
{
    match row.range {
        None => row.right.places,
        Some(range) => raised(row.right.places, true, range),
    }
}

// The places of each row's right-hand side and range.
fn all_own_places(alloc: Global, rows: &[CoreRow]) -> Result<Vec<u8>, AllocError>
    ensures { IfOk result
        (λ places. places.items ≡ map (λ row. common_places (own_numbers row)) rows.now) }
{
    let mut places = Vec::new(alloc);
    for row in rows {
        places.push(own_places(row))?;
    }
    Ok(places)
}

// Raises the places of a row, if there is one, to those of a number.
fn raise(places: &mut Vec<u8>, row: Option<u32>, number: Decimal)
    requires { IfSome row (λ i. i < length places.old.items) }
    ensures { places.new.items ≡ raised_at places.old.items row number.places }
{
    if let Some(row) = row {
        let at = row as usize;
        places[at] = raised(places[at], true, number);
    }
}

// The places of each row in the core.
fn core_places(alloc: Global, core: &Core, sides: &List<Side>) -> Result<Vec<u8>, AllocError>
    requires { length sides.now ≡ length core.now.columns }
    ensures { IfOk result
        (λ places. places.items
        ≡ map (λ i. common_places (core_row_numbers (parts_of core.now) sides.now i))
        (range_with_len 0 (length core.now.rows))) }
{
    let mut places = all_own_places(alloc, core.rows.as_slice())?;
    for entry in core.entries.as_slice() {
        raise(&mut places, live_row_of_entry(sides, entry), entry.value);
    }
    Ok(places)
}

/// The decimal places by which each row is scaled: the most that its right-hand
/// side, its range, or an entry of the core or of the stoch file has.
pub fn row_places(
    alloc: Global,
    core: &Core,
    sides: &List<Side>,
    entries: &[StochEntry],
) -> Result<List<u8>, AllocError>
    requires long { length sides.now ≡ length core.now.columns }
    requires named { All (λ (e : StochEntry). IsNamed sides.now e.place) entries.now }
    requires rows { All (λ (e : StochEntry). IsRowNamed (length core.now.rows) e.place)
        entries.now }
    ensures { IfOk result
        (λ places. places
        ≡ map (row_places (parts_of core.now) sides.now entries.now)
        (range_with_len 0 (length core.now.rows))) }
{
    let mut places = core_places(alloc, core, sides)?;
    for entry in entries {
        raise(
            &mut places,
            live_row_of_place(sides, entry.place),
            entry.value,
        );
    }
    Ok(List::from_vec(places))
}
