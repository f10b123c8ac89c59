ghost use Rattle.std.specs.Prelude.{◌≡◌, ◌≤◌, IfOk, OnOk};
ghost use Rattle.boxed_problem.specs.Data.{problem_of};
ghost use Rattle.boxed_problem.specs.Optimum.{IsBest, best_of, better, improves};
ghost use Rattle.boxed_problem.specs.Points.{InBox, point_count};

use crate::odometer::{first_point, step};
use crate::parts::Best;
use crate::problem::Boxed;
use std::alloc::{AllocError, Global};
use wide_num::List;

/// Whether a value is below the best one so far.
pub fn is_better(value: i128, best: &Option<Best>) -> bool
    ensures { result ≡ improves value best.now }
{
    match best {
        Some(best) => value < best.value,
        None => true,
    }
}

/// Takes a point of the box as the best so far where it meets all rows and
/// its value is below the best one.
pub fn consider(
    problem: &Boxed,
    point: &List<i64>,
    best: &mut Option<Best>,
) -> Result<(), AllocError>
    requires { InBox problem.now.columns point.now }
    ensures { OnOk result (best.new ≡ better (problem_of problem.now) best.old point.now) }
{
    if !problem.meets_rows(point) {
        return Ok(());
    }
    let value = problem.value(point);
    if !is_better(value, best) {
        return Ok(());
    }
    let point = point.copied()?;
    *best = Some(Best { point, value });
    Ok(())
}

/// The first feasible point of least value, in the order of columns with
/// smaller values first, found by going over all points of the box.
pub fn scan(alloc: Global, problem: &Boxed) -> Result<Option<Best>, AllocError>
    requires { point_count problem.now.columns ≤ 1000000 }
    ensures best { IfOk result (λ best. best ≡ best_of (problem_of problem.now)) }
    ensures meaning { IfOk result (λ best. IsBest (problem_of problem.now) best) }
{
    let mut point = first_point(alloc, problem.columns.as_slice())?;
    let mut best = None;
    'points: loop {
        consider(problem, &point, &mut best)?;
        if !step(problem.columns.as_slice(), &mut point) {
            return Ok(best);
        }
    }
}
