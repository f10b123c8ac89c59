ghost use Rattle.std.specs.Prelude.{◌≡◌, ◌++◌, ◌∷◌, [], ◌<◌, ◌≤◌, ◌^◌, length, IfErr, IfOk, OnOk};
ghost use Rattle.std.specs.List.{Any};
ghost use Rattle.join_words.specs.Parts.{firsts_of, parts_of};
ghost use Rattle.join_words.specs.RunOf.{column_of, column_with, columns_of, cost_of};
ghost use Rattle.join_numbers.specs.Sizes.{IsFit};
ghost use Rattle.join_numbers.specs.UnfitNumbers.{ByUnfit, IsLargeColumn};

use crate::fault::MakeFault;
use crate::sizes::scaled_number;
use join_frame::is_idle;
use join_words::Frame;
use smps_words::{Core, Periods};
use sp_model::Column;
use std::alloc::Global;
use wide_num::List;

// The cost of a column in the run: 0 where its box is the single 0.
fn cost(core: &Core, frame: &Frame, j: usize) -> Option<i128>
    requires there { j < length core.now.columns }
    requires long { length frame.now.sides ≡ length core.now.columns }
    requires places { frame.now.cost_places ≤ 9 }
    ensures { IsFit result (cost_of (parts_of core.now) frame.now j) }
{
    if is_idle(&frame.sides, j) {
        return Some(0);
    }
    scaled_number(core.columns.as_slice()[j].cost, frame.cost_places)
}

// A column with this cost.
fn column(periods: &Periods, frame: &Frame, cost: i128, j: usize) -> Column
    requires there { j < length frame.now.sides }
    requires few { j < 2 ^ 32 }
    ensures { result ≡ column_with (firsts_of periods.now) frame.now cost j }
{
    let side = frame.sides.as_slice()[j];
    Column {
        stage: periods.stage_of_column(j as u32),
        lower: side.lower,
        upper: side.upper,
        cost,
    }
}

// One more column.
fn push(
    columns: &mut List<Column>,
    core: &Core,
    periods: &Periods,
    frame: &Frame,
    j: usize,
) -> Result<(), MakeFault>
    requires there { j < length core.now.columns }
    requires long { length frame.now.sides ≡ length core.now.columns }
    requires places { frame.now.cost_places ≤ 9 }
    ensures ok { OnOk result
        (columns.new
        ≡ columns.old ++ column_of (parts_of core.now) (firsts_of periods.now) frame.now j ∷ []) }
    ensures err { IfErr result
        (ByUnfit
        (IsLargeColumn (column_of (parts_of core.now) (firsts_of periods.now) frame.now j))) }
{
    match cost(core, frame, j) {
        None => Err(MakeFault::Unfit),
        Some(cost) => {
            columns.push(column(periods, frame, cost, j))?;
            Ok(())
        }
    }
}

/// The columns of the run.
pub fn columns(
    alloc: Global,
    core: &Core,
    periods: &Periods,
    frame: &Frame,
) -> Result<List<Column>, MakeFault>
    requires long { length frame.now.sides ≡ length core.now.columns }
    requires places { frame.now.cost_places ≤ 9 }
    ensures ok { IfOk result
        (λ columns. columns ≡ columns_of (parts_of core.now) (firsts_of periods.now) frame.now) }
    ensures err { IfErr result
        (ByUnfit
        (Any IsLargeColumn (columns_of (parts_of core.now) (firsts_of periods.now) frame.now))) }
{
    let mut columns = List::new(alloc);
    for j in 0..core.columns.len() {
        push(&mut columns, core, periods, frame, j)?;
    }
    Ok(columns)
}
