ghost use Rattle.std.specs.Prelude.{◌≡◌, ◌++◌, ◌∷◌, [], ◌<◌, ◌≤◌, ◌^◌, length, slice_index, IfErr, IfOk, OnOk};
ghost use Rattle.std.specs.List.{All, Any};
ghost use Rattle.join_words.specs.Parts.{firsts_of, parts_of};
ghost use Rattle.join_words.specs.RunOf.{row_of, row_with, rows_of};
ghost use Rattle.join_numbers.specs.UnfitNumbers.{ByUnfit, IsLargeRow};

use crate::fault::MakeFault;
use crate::limits::limits;
use boxed_problem::Limits;
use join_words::Frame;
use smps_words::{Core, Periods};
use sp_model::Row;
use std::alloc::Global;
use wide_num::List;

// A row with these limits.
fn row(periods: &Periods, limits: Limits, i: u32) -> Row
    ensures { result ≡ row_with (firsts_of periods.now) limits i }
{
    Row {
        stage: periods.stage_of_row(i),
        lower: limits.lower,
        upper: limits.upper,
    }
}

// One more row.
fn push(
    rows: &mut List<Row>,
    core: &Core,
    periods: &Periods,
    frame: &Frame,
    i: usize,
) -> Result<(), MakeFault>
    requires there { i < length core.now.rows }
    requires long { length frame.now.row_places ≡ length core.now.rows }
    requires places { All (λ p. p ≤ 9) frame.now.row_places }
    ensures ok { OnOk result
        (rows.new ≡ rows.old ++ row_of (parts_of core.now) (firsts_of periods.now) frame.now i
        ∷ []) }
    ensures err { IfErr result
        (ByUnfit (IsLargeRow (row_of (parts_of core.now) (firsts_of periods.now) frame.now i))) }
{
    let own = &core.rows.as_slice()[i];
    match limits(own, own.right, frame.row_places.as_slice()[i]) {
        Err(_) => Err(MakeFault::Unfit),
        Ok(limits) => {
            rows.push(row(periods, limits, i as u32))?;
            Ok(())
        }
    }
}

/// The rows of the run.
pub fn rows(
    alloc: Global,
    core: &Core,
    periods: &Periods,
    frame: &Frame,
) -> Result<List<Row>, MakeFault>
    requires long { length frame.now.row_places ≡ length core.now.rows }
    requires places { All (λ p. p ≤ 9) frame.now.row_places }
    ensures ok { IfOk result
        (λ rows. rows ≡ rows_of (parts_of core.now) (firsts_of periods.now) frame.now) }
    ensures err { IfErr result
        (ByUnfit (Any IsLargeRow (rows_of (parts_of core.now) (firsts_of periods.now) frame.now))) }
{
    let mut rows = List::new(alloc);
    for i in 0..core.rows.len() {
        push(&mut rows, core, periods, frame, i)?;
    }
    Ok(rows)
}
