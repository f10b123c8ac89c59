ghost use Rattle.std.specs.Prelude.{◌≡◌, ◌<◌, true, false, IfOk, OnOk, OnErr, length, slice_set};
ghost use Rattle.boxed_problem.specs.BoxedFacts.{entry_at, limits_at};
ghost use Rattle.propagate.specs.Ranges.{high_activity, low_activity, misses};
ghost use Rattle.boxed_problem.specs.Sides.{side_at};
ghost use Rattle.propagate.specs.Ranged.{IsInside};
ghost use Rattle.propagate.specs.Tightening.{IsCut, MissesRow, Tightens};
ghost use Rattle.propagate.specs.Trails.{IsAsBefore, KeepsAllMarks};

use crate::limits::{above_limit, below_limit};
use crate::range::Range;
use crate::row_ranges::is_missed;
use crate::sparse::Sparse;
use crate::trail::Trail;
use boxed_problem::{Limits, Side, is_met};
use std::alloc::AllocError;

/// Whether the range of a row misses its limits.
pub fn is_row_missed(trail: &Trail, sparse: &Sparse, row: usize) -> bool
    requires row { row < length sparse.now.rows }
    requires sparse { sparse.now ≡ trail.now.sparse.value }
    ensures { result
        ≡ misses (limits_at sparse.now.rows row)
        (low_activity sparse.now.entries trail.now.sides row)
        (high_activity sparse.now.entries trail.now.sides row) }
{
    is_missed(sparse.rows.as_slice()[row], trail.ranges.as_slice()[row])
}

/// The side of an entry's column that its row's upper limit leaves.
fn side_below(trail: &Trail, sparse: &Sparse, place: usize, row: usize) -> Side
    requires place { place < length sparse.now.entries }
    requires row { row ≡ (entry_at sparse.now.entries place).row }
    requires sparse { sparse.now ≡ trail.now.sparse.value }
    requires not_missed { misses (limits_at sparse.now.rows row)
        (low_activity sparse.now.entries trail.now.sides row)
        (high_activity sparse.now.entries trail.now.sides row) ≡ false }
    ensures { IsCut sparse.now.rows sparse.now.entries trail.now.sides
        (entry_at sparse.now.entries place).column result }
{
    let range = trail.ranges.as_slice()[row];
    let sides = trail.sides.as_slice();
    below_limit(
        sparse.rows.as_slice(),
        sparse.entries.as_slice(),
        sides,
        range,
        place,
    )
}

/// The side of an entry's column that its row's lower limit leaves.
fn side_above(trail: &Trail, sparse: &Sparse, place: usize, row: usize) -> Side
    requires place { place < length sparse.now.entries }
    requires row { row ≡ (entry_at sparse.now.entries place).row }
    requires sparse { sparse.now ≡ trail.now.sparse.value }
    requires not_missed { misses (limits_at sparse.now.rows row)
        (low_activity sparse.now.entries trail.now.sides row)
        (high_activity sparse.now.entries trail.now.sides row) ≡ false }
    ensures { IsCut sparse.now.rows sparse.now.entries trail.now.sides
        (entry_at sparse.now.entries place).column result }
{
    let range = trail.ranges.as_slice()[row];
    let sides = trail.sides.as_slice();
    above_limit(
        sparse.rows.as_slice(),
        sparse.entries.as_slice(),
        sides,
        range,
        place,
    )
}

/// Puts a narrower side in the place of a column's, if it isn't the same.
pub fn replace_side(
    trail: &mut Trail,
    sparse: &Sparse,
    column: usize,
    side: Side,
) -> Result<(), AllocError>
    requires column { column < length trail.old.sides }
    requires inside { IsInside side (side_at trail.old.sides column) }
    requires sparse { sparse.now ≡ trail.old.sparse.value }
    ensures sides { OnOk result (trail.new.sides ≡ slice_set trail.old.sides column side) }
    ensures marks { KeepsAllMarks trail.old trail.new }
    ensures fails { OnErr result (IsAsBefore trail.old trail.new) }
{
    let old = trail.sides.as_slice()[column];
    if old.lower < side.lower || side.upper < old.upper {
        trail.narrow_at(sparse, column, side)?;
    }
    Ok(())
}

/// Puts a narrower side in the place of a column's, that no point which meets
/// the rows is outside of.
fn narrow_to(
    trail: &mut Trail,
    sparse: &Sparse,
    column: usize,
    side: Side,
) -> Result<(), AllocError>
    requires column { column < length trail.old.sides }
    requires cut { IsCut sparse.now.rows sparse.now.entries trail.old.sides column side }
    requires sparse { sparse.now ≡ trail.old.sparse.value }
    ensures { Tightens sparse.now trail.old trail.new }
{
    replace_side(trail, sparse, column, side)
}

/// Narrows the column of one entry by the limits of its row. It answers false
/// only where the row's range misses its limits.
fn tighten_entry(
    trail: &mut Trail,
    sparse: &Sparse,
    place: usize,
    row: usize,
    column: usize,
) -> Result<bool, AllocError>
    requires place { place < length sparse.now.entries }
    requires row { row ≡ (entry_at sparse.now.entries place).row }
    requires column { column ≡ (entry_at sparse.now.entries place).column }
    requires sparse { sparse.now ≡ trail.old.sparse.value }
    ensures tightens { Tightens sparse.now trail.old trail.new }
    ensures missed { IfOk result
        (λ some. some ≡ false → MissesRow sparse.now.rows sparse.now.entries trail.new.sides row) }
{
    if is_row_missed(trail, sparse, row) {
        return Ok(false);
    }
    let side = side_below(trail, sparse, place, row);
    narrow_to(trail, sparse, column, side)?;
    if is_row_missed(trail, sparse, row) {
        return Ok(false);
    }
    let side = side_above(trail, sparse, place, row);
    narrow_to(trail, sparse, column, side)?;
    Ok(true)
}

/// Whether each activity of a range meets the limits, so that they narrow
/// nothing.
pub fn is_free(limits: Limits, range: Range) -> bool {
    is_met(limits, range.low) && is_met(limits, range.high)
}

/// Narrows the columns of one row by its limits. It answers false only where
/// the row's range misses them.
pub fn tighten_row(trail: &mut Trail, sparse: &Sparse, row: usize) -> Result<bool, AllocError>
    requires row { row < length sparse.now.rows }
    requires sparse { sparse.now ≡ trail.old.sparse.value }
    ensures tightens { Tightens sparse.now trail.old trail.new }
    ensures missed { IfOk result
        (λ some. some ≡ false → MissesRow sparse.now.rows sparse.now.entries trail.new.sides row) }
{
    if is_free(sparse.rows.as_slice()[row], trail.ranges.as_slice()[row]) {
        return Ok(true);
    }
    let mut place = sparse.firsts.as_slice()[row];
    while place < sparse.entries.len() {
        let column = sparse.entries.as_slice()[place].column as usize;
        if !tighten_entry(trail, sparse, place, row, column)? {
            return Ok(false);
        }
        place = sparse.nexts.as_slice()[place];
    }
    Ok(true)
}
