ghost use Rattle.std.specs.Prelude.{◌≡◌, ◌≤ℤ◌, ◌<ℤ◌, ◌+ℤ◌, ℤ, pos, IfOk, IfSome, IsTrue};
ghost use Rattle.boxed_problem.specs.Data.{problem_of};
ghost use Rattle.branch_bound.specs.ValueGrid.{AllStep, Apart, HasStep, IsGrid, IsMultiple};

use boxed_problem::{Boxed, Side, first_point};
use std::alloc::{AllocError, Global};

/// How many divisions find a greatest common divisor of 128 bits.
const DIVISIONS: u32 = 190;

/// A value of the objective, and a step of which all values are a multiple away
/// from it.
#[derive(Clone, Copy, Debug, Drop)]
pub struct Grid {
    pub base: i128,
    pub step: i128,
}

/// The greatest number that divides two.
fn common(first: u128, second: u128) -> u128 {
    let mut larger = first;
    let mut smaller = second;
    for _ in 0..DIVISIONS {
        if smaller == 0 {
            break;
        }
        let rest = larger % smaller;
        larger = smaller;
        smaller = rest;
    }
    larger
}

/// A step that a problem may have, at least 1.
fn likely_step(problem: &Boxed) -> i128
    ensures { pos 1 ≤ℤ result }
{
    let columns = problem.columns.as_slice();
    let line = problem.line.as_slice();
    let square = problem.square.as_slice();
    let mut step = 0u128;
    for j in 0..columns.len() {
        if columns[j].lower < columns[j].upper {
            step = common(step, line[j].saturating_add(square[j]).unsigned_abs());
            step = common(step, square[j].saturating_mul(2).unsigned_abs());
        }
    }
    let most = 1u128 << 120;
    if step < 1 || step > most {
        return 1;
    }
    step as i128
}

/// Whether a number is a multiple of a step.
fn divides(step: i128, number: i128) -> bool
    requires { pos 1 ≤ℤ step }
    ensures { IsTrue result → IsMultiple step number }
{
    let Some(multiple) = step.checked_mul(number.div_euclid(step)) else {
        return false;
    };
    if multiple == number {
        return true;
    }
    false
}

/// Whether the sum of two numbers is a multiple of a step.
fn divides_sum(step: i128, first: i128, second: i128) -> bool
    requires { pos 1 ≤ℤ step }
    ensures { IsTrue result → IsMultiple step (first +ℤ second) }
{
    match first.checked_add(second) {
        Some(sum) => divides(step, sum),
        None => false,
    }
}

/// Whether a column has a step.
fn has_step(step: i128, line: i128, square: i128, side: Side) -> bool
    requires { pos 1 ≤ℤ step }
    ensures { IsTrue result → HasStep step line square side }
{
    if side.upper <= side.lower {
        return true;
    }
    if !divides_sum(step, line, square) {
        return false;
    }
    divides_sum(step, square, square)
}

/// Whether each column has a step.
fn all_have_step(problem: &Boxed, step: i128) -> bool
    requires { pos 1 ≤ℤ step }
    ensures { IsTrue result → AllStep (problem_of problem.now) step }
{
    let columns = problem.columns.as_slice();
    let line = problem.line.as_slice();
    let square = problem.square.as_slice();
    for j in 0..columns.len() {
        if !has_step(step, line[j], square[j], columns[j]) {
            return false;
        }
    }
    true
}

/// The base and the step of a problem's values.
pub fn grid_of(alloc: Global, problem: &Boxed) -> Result<Grid, AllocError>
    ensures { IfOk result (λ grid. IsGrid (problem_of problem.now) grid.base grid.step) }
{
    let point = first_point(alloc, problem.columns.as_slice())?;
    let base = problem.value(&point);
    let step = likely_step(problem);
    if all_have_step(problem, step) {
        return Ok(Grid { base, step });
    }
    Ok(Grid { base, step: 1 })
}

/// The greatest number of a grid below a value, or none where it is too wide.
pub fn greatest_below(grid: Grid, value: i128) -> Option<i128>
    requires { pos 1 ≤ℤ grid.step }
    ensures { IfSome result
        (λ below. (v : ℤ) → Apart grid.step v grid.base → v <ℤ value → v ≤ℤ below) }
{
    let top = value.checked_sub(1)?;
    let far = top.checked_sub(grid.base)?;
    let more = grid.step.checked_mul(far.div_euclid(grid.step))?;
    let below = grid.base.checked_add(more)?;
    Some(below)
}
