ghost use Rattle.std.specs.Prelude.{◌≡◌, ◌<◌, IfErr, length};
ghost use Rattle.boxed_problem.specs.Data.{problem_of};
ghost use Rattle.boxed_problem.specs.BoxedFacts.{entry_at};
ghost use Rattle.boxed_problem.specs.Sides.{Within};
ghost use Rattle.propagate.specs.Tightening.{HoldsNone, HoldsSame, IsCut, IsReady, MissesRow};

use crate::fault::Empty;
use crate::limits::{above_limit, below_limit};
use crate::range::Range;
use crate::row_ranges::{is_missed, row_range};
use crate::tightening::is_free;
use boxed_problem::{Boxed, Side};
use wide_num::List;

/// How often all rows are gone through at most. It stops slow creeping over
/// wide sides.
const PASSES: usize = 30;

/// Sets a column's side to one that no point which meets the rows is outside
/// of. It answers whether the side was another one.
fn set_side(problem: &Boxed, sides: &mut List<Side>, column: usize, side: Side) -> bool
    requires within { Within sides.old problem.now.columns }
    requires column { column < length sides.old }
    requires cut { IsCut problem.now.rows problem.now.entries sides.old column side }
    ensures { HoldsSame (problem_of problem.now) sides.old sides.new }
{
    let _problem = problem;
    let old = sides.set(column, side);
    old.lower < side.lower || side.upper < old.upper
}

/// Narrows the column of one entry by the limits of its row, whose range lies
/// in this one. It answers whether its side was narrowed.
fn tighten_place(problem: &Boxed, sides: &mut List<Side>, range: Range, place: usize) -> bool
    requires within { Within sides.old problem.now.columns }
    requires place { place < length problem.now.entries }
    requires ready { IsReady problem.now.rows problem.now.entries sides.old place range }
    ensures { HoldsSame (problem_of problem.now) sides.old sides.new }
{
    let rows = problem.rows.as_slice();
    let entries = problem.entries.as_slice();
    let column = entries[place].column as usize;
    let side = below_limit(rows, entries, sides.as_slice(), range, place);
    let first = set_side(problem, sides, column, side);
    let side = above_limit(rows, entries, sides.as_slice(), range, place);
    set_side(problem, sides, column, side) || first
}

/// Narrows the columns of one row by its limits. It answers whether a side was
/// narrowed.
fn tighten_one(problem: &Boxed, sides: &mut List<Side>, row: u32) -> Result<bool, Empty>
    requires within { Within sides.old problem.now.columns }
    requires row { row < length problem.now.rows }
    ensures holds { HoldsSame (problem_of problem.now) sides.old sides.new }
    ensures empty { IfErr result
        (λ e. MissesRow problem.now.rows problem.now.entries sides.new e.row) }
{
    let limits = problem.rows.as_slice()[row as usize];
    let range = row_range(sides.as_slice(), problem.entries.as_slice(), row as usize);
    if is_missed(limits, range) {
        return Err(Empty { row });
    }
    if is_free(limits, range) {
        return Ok(false);
    }
    let mut narrowed = false;
    for place in 0..problem.entries.len() {
        if problem.entries.as_slice()[place].row == row {
            narrowed = tighten_place(problem, sides, range, place) || narrowed;
        }
    }
    Ok(narrowed)
}

/// Narrows the columns by each row in turn. It answers whether a side was
/// narrowed.
fn tighten_all(problem: &Boxed, sides: &mut List<Side>) -> Result<bool, Empty>
    requires { Within sides.old problem.now.columns }
    ensures holds { HoldsSame (problem_of problem.now) sides.old sides.new }
    ensures empty { IfErr result
        (λ e. MissesRow problem.now.rows problem.now.entries sides.new e.row) }
{
    let mut narrowed = false;
    for row in 0..u32::try_from(problem.rows.len()).unwrap_or(u32::MAX) {
        if (row as usize) < problem.rows.len() {
            narrowed = tighten_one(problem, sides, row)? || narrowed;
        }
    }
    Ok(narrowed)
}

/// Narrows sides by the limits of the rows, and loses no point that meets the
/// rows. `Empty` comes only where that row's range over the new sides misses
/// its limits; the old sides then hold no point that meets the rows. It takes
/// no memory, and the time of rows times entries for each time that the rows
/// are gone through.
pub fn tighten(problem: &Boxed, sides: &mut List<Side>) -> Result<(), Empty>
    requires { Within sides.old problem.now.columns }
    ensures holds { HoldsSame (problem_of problem.now) sides.old sides.new }
    ensures empty { IfErr result
        (λ e. MissesRow problem.now.rows problem.now.entries sides.new e.row) }
    ensures none { IfErr result (λ e. HoldsNone (problem_of problem.now) sides.old) }
{
    for _ in 0..PASSES {
        match tighten_all(problem, sides) {
            Ok(true) => {}
            Ok(false) => return Ok(()),
            Err(empty) => return Err(empty),
        }
    }
    Ok(())
}
