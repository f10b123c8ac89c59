ghost use Rattle.std.specs.Prelude.{◌≡◌, ◌<◌, ◌≤◌, length, IfErr, IfOk, OnOk};
ghost use Rattle.std.specs.List.{All, Any, filter_map};
ghost use Rattle.stoch_lines.specs.declared.places.StochEntry.{StochEntry};
ghost use Rattle.smps_stoch.specs.StochFacts.{IsPlace};
ghost use Rattle.join_words.specs.Parts.{parts_of};
ghost use Rattle.join_words.specs.RunOf.{cell_change, change_of, cost_change, limits_change};
ghost use Rattle.join_numbers.specs.Changing.{IsChangeOf, IsFrameOf};
ghost use Rattle.join_numbers.specs.Turning.{with_change};
ghost use Rattle.join_numbers.specs.UnfitNumbers.{ByUnfit, IsLargeChange, IsSomeLarge};

use crate::fault::MakeFault;
use crate::limits::{Unfit, limits};
use crate::sizes::scaled_number;
use dec_core::Decimal;
use join_frame::is_idle;
use join_words::Frame;
use smps_stoch::{StochEntry, StochPlace};
use smps_words::Core;
use sp_model::Change;
use std::alloc::Global;
use wide_num::List;

// Another cost of a column, unless the column leaves the run.
fn cost_change(frame: &Frame, column: u32, value: Decimal) -> Result<Option<Change>, Unfit>
    requires column { column < length frame.now.sides }
    requires places { frame.now.cost_places ≤ 9 }
    ensures { IsChangeOf result (cost_change frame.now column value) }
{
    if is_idle(&frame.sides, column as usize) {
        return Ok(None);
    }
    match scaled_number(value, frame.cost_places) {
        Some(value) => Ok(Some(Change::Cost { column, value })),
        None => Err(Unfit),
    }
}

// Another entry of a row and a column, unless the column leaves the run.
fn cell_change(
    frame: &Frame,
    row: u32,
    column: u32,
    value: Decimal,
) -> Result<Option<Change>, Unfit>
    requires row { row < length frame.now.row_places }
    requires column { column < length frame.now.sides }
    requires places { All (λ p. p ≤ 9) frame.now.row_places }
    ensures { IsChangeOf result (cell_change frame.now row column value) }
{
    if is_idle(&frame.sides, column as usize) {
        return Ok(None);
    }
    match scaled_number(value, frame.row_places.as_slice()[row as usize]) {
        Some(value) => Ok(Some(Change::Cell { row, column, value })),
        None => Err(Unfit),
    }
}

// Other limits of a row.
fn limits_change(
    core: &Core,
    frame: &Frame,
    row: u32,
    value: Decimal,
) -> Result<Option<Change>, Unfit>
    requires row { row < length core.now.rows }
    requires long { length frame.now.row_places ≡ length core.now.rows }
    requires places { All (λ p. p ≤ 9) frame.now.row_places }
    ensures { IsChangeOf result (limits_change (parts_of core.now) frame.now row value) }
{
    let at = row as usize;
    match limits(
        &core.rows.as_slice()[at],
        value,
        frame.row_places.as_slice()[at],
    ) {
        Ok(limits) => Ok(Some(Change::Limits {
            row,
            lower: limits.lower,
            upper: limits.upper,
        })),
        Err(unfit) => Err(unfit),
    }
}

// What an entry of the stoch file changes.
fn change(core: &Core, frame: &Frame, entry: &StochEntry) -> Result<Option<Change>, Unfit>
    requires frame { IsFrameOf core.now frame.now }
    requires there { IsPlace core.now entry.now.place }
    ensures { IsChangeOf result (change_of (parts_of core.now) frame.now entry.now) }
{
    match entry.place {
        StochPlace::Cost(column) => cost_change(frame, column, entry.value),
        StochPlace::Cell(row, column) => cell_change(frame, row, column, entry.value),
        StochPlace::Right(row) => limits_change(core, frame, row, entry.value),
    }
}

// One more change, where an entry makes one.
fn push(
    changes: &mut List<Change>,
    core: &Core,
    frame: &Frame,
    entry: &StochEntry,
) -> Result<(), MakeFault>
    requires frame { IsFrameOf core.now frame.now }
    requires there { IsPlace core.now entry.now.place }
    ensures ok { OnOk result
        (changes.new ≡ with_change changes.old
        (change_of (parts_of core.now) frame.now entry.now)) }
    ensures err { IfErr result
        (ByUnfit (IsSomeLarge (change_of (parts_of core.now) frame.now entry.now))) }
{
    match change(core, frame, entry) {
        Err(_) => Err(MakeFault::Unfit),
        Ok(None) => Ok(()),
        Ok(Some(change)) => {
            changes.push(change)?;
            Ok(())
        }
    }
}

/// What some entries of the stoch file change.
pub fn changes(
    alloc: Global,
    core: &Core,
    frame: &Frame,
    entries: &[StochEntry],
) -> Result<List<Change>, MakeFault>
    requires frame { IsFrameOf core.now frame.now }
    requires there { All (λ (e : StochEntry). IsPlace core.now e.place) entries.now }
    ensures ok { IfOk result
        (λ changes. changes ≡ filter_map (change_of (parts_of core.now) frame.now) entries.now) }
    ensures err { IfErr result
        (ByUnfit
        (Any IsLargeChange (filter_map (change_of (parts_of core.now) frame.now) entries.now))) }
{
    let mut changes = List::new(alloc);
    for entry in entries {
        push(&mut changes, core, frame, entry)?;
    }
    Ok(changes)
}
