ghost use Rattle.std.specs.Prelude.{◌≡◌, ◌<◌, ◌≤ℤ◌, ◌-ℤ◌, ◌*ℤ◌, pos, true, false, IfOk, IfSome, OnOk, length};
ghost use Rattle.boxed_problem.specs.Data.{problem_of};
ghost use Rattle.branch_bound.specs.Bettering.{IsMost, IsSlack, Narrows};
ghost use Rattle.branch_bound.specs.Narrowing.{NoneBelow};
ghost use Rattle.branch_bound.specs.ValueGrid.{IsGrid};
ghost use Rattle.propagate.specs.SparseParts.{IsOf};
ghost use Rattle.safe_bound.specs.ReducedOf.{IsUnder, reduced_total};

use crate::curving::column_cut;
use crate::gridding::{Grid, greatest_below};
use boxed_problem::{Best, Boxed};
use propagate::{Sparse, Trail, replace_side};
use safe_bound::{Reduced, total_from};
use std::alloc::AllocError;

/// The scale times a number, or none where that is too wide.
fn scaled(number: i128, scale: i128) -> Option<i128>
    ensures { IfSome result (λ most. most ≡ (scale *ℤ number)) }
{
    scale.checked_mul(number)
}

/// The greatest that the scale times a value below the best so far can be; none
/// where there is no best, or the number is too wide.
fn most_below(problem: &Boxed, grid: Grid, best: &Option<Best>, scale: i128) -> Option<i128>
    requires grid { IsGrid (problem_of problem.now) grid.base grid.step }
    requires scale { pos 1 ≤ℤ scale }
    ensures { IfSome result (λ most. IsMost (problem_of problem.now) best.now scale most) }
{
    let _problem = problem;
    let Some(best) = best else {
        return None;
    };
    let Some(below) = greatest_below(grid, best.value) else {
        return None;
    };
    let Some(most) = scaled(below, scale) else {
        return None;
    };
    Some(most)
}

/// What is left between a number and a total below it, or none where that is
/// too wide.
fn slack_above(most: i128, total: i128) -> Option<i128>
    ensures { IfSome result (λ slack. slack ≡ (most -ℤ total)) }
{
    most.checked_sub(total)
}

/// Narrows a column to the values that a slack above the total leaves.
fn narrow_column(
    problem: &Boxed,
    sparse: &Sparse,
    reduced: &Reduced,
    best: &Option<Best>,
    trail: &mut Trail,
    column: usize,
    slack: i128,
) -> Result<(), AllocError>
    requires column { column < length reduced.now.columns }
    requires of { IsOf (problem_of problem.now) sparse.now }
    requires sparse { sparse.now ≡ trail.old.sparse.value }
    requires under { IsUnder (problem_of problem.now) reduced.now }
    requires slack { IsSlack (problem_of problem.now) best.now reduced.now.scale
        (reduced_total reduced.now trail.old.sides) slack }
    ensures { OnOk result (Narrows (problem_of problem.now) best.now trail.old trail.new) }
{
    let _problem = problem;
    let _best = best;
    let side = trail.sides.as_slice()[column];
    if side.upper <= side.lower {
        return Ok(());
    }
    let line = reduced.line.as_slice()[column];
    let square = reduced.square.as_slice()[column];
    let cut = column_cut(line, square, side, slack);
    replace_side(trail, sparse, column, cut)?;
    Ok(())
}

/// Narrows each column to what a value below the best so far leaves, as far as
/// a reduced objective tells. It answers false only where it leaves nothing.
pub fn narrow_by(
    problem: &Boxed,
    sparse: &Sparse,
    reduced: &Reduced,
    grid: Grid,
    best: &Option<Best>,
    trail: &mut Trail,
) -> Result<bool, AllocError>
    requires of { IsOf (problem_of problem.now) sparse.now }
    requires sparse { sparse.now ≡ trail.old.sparse.value }
    requires under { IsUnder (problem_of problem.now) reduced.now }
    requires grid { IsGrid (problem_of problem.now) grid.base grid.step }
    ensures narrows { OnOk result (Narrows (problem_of problem.now) best.now trail.old trail.new) }
    ensures none { IfOk result
        (λ some. some ≡ false → NoneBelow (problem_of problem.now) best.now trail.new.sides) }
{
    let Some(most) = most_below(problem, grid, best, reduced.scale) else {
        return Ok(true);
    };
    let total = total_from(reduced, &trail.sides);
    if most < total {
        return Ok(false);
    }
    let Some(slack) = slack_above(most, total) else {
        return Ok(true);
    };
    for column in 0..reduced.columns.len() {
        narrow_column(problem, sparse, reduced, best, trail, column, slack)?;
    }
    Ok(true)
}
