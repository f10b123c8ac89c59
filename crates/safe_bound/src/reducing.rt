ghost use Rattle.std.specs.Prelude.{◌≡◌, IfOk, List};
ghost use Rattle.wide_num.specs.Quotients.{IsCeiling};
ghost use Rattle.boxed_problem.specs.Data.{Problem, problem_of};
ghost use Rattle.boxed_problem.specs.PriceFit.{FitsPrices};
ghost use Rattle.boxed_problem.specs.Sides.{Within};
ghost use Rattle.boxed_problem.specs.declared.parts.Prices.{Prices};
ghost use Rattle.safe_bound.specs.PriceBound.{IsPriceBound};
ghost use Rattle.safe_bound.specs.ReducedOf.{IsReduced, IsUnder, reduced_total};

use crate::costs::{kept_cost, reduced_constant, run_end};
use crate::least_values::column_least;
use crate::reduced::Reduced;
use boxed_problem::{Boxed, Prices, Side};
use std::alloc::AllocError;
use wide_num::{List, ceil_div};

/// The problem with the prices taken into its objective.
pub fn reduce_by(problem: &Boxed, prices: &Prices) -> Result<Reduced, AllocError>
    requires { FitsPrices (problem_of problem.now) prices.now }
    ensures is { IfOk result (λ r. IsReduced (problem_of problem.now) prices.now r) }
    ensures under { IfOk result (λ r. IsUnder (problem_of problem.now) r) }
{
    let entries = problem.entries.as_slice();
    let columns = problem.columns.copied()?;
    let mut line = problem.line.copied()?;
    let mut square = problem.square.copied()?;
    let mut first = 0;
    for j in 0..columns.len() {
        let end = run_end(entries, j, first);
        let cost = kept_cost(problem, prices, j, first, end);
        line.set(j, cost.line);
        square.set(j, cost.square);
        first = end;
    }
    Ok(Reduced {
        columns,
        scale: prices.scale,
        constant: reduced_constant(problem, prices),
        line,
        square,
    })
}

/// The reduced constant and the columns' leasts over the sides, which lie in
/// the box of the problem that was reduced.
pub fn total_from(reduced: &Reduced, sides: &List<Side>) -> i128
    requires { Within sides.now reduced.now.columns }
    ensures { result ≡ reduced_total reduced.now sides.now }
{
    let line = reduced.line.as_slice();
    let square = reduced.square.as_slice();
    let box_sides = sides.as_slice();
    let mut total = reduced.constant;
    for j in 0..box_sides.len() {
        total += column_least(line[j], square[j], box_sides[j]);
    }
    total
}

/// The bound over the sides, which lie in the box of the problem that was
/// reduced: the same number as `bound` gives for that problem and its prices.
pub fn bound_from(reduced: &Reduced, sides: &List<Side>) -> i128
    requires { Within sides.now reduced.now.columns }
    ensures number { IsCeiling (reduced_total reduced.now sides.now) reduced.now.scale result }
    ensures bound { (b : Problem) (prices : Prices) → IsReduced b prices reduced.now →
        IsPriceBound b prices sides.now result }
{
    ceil_div(total_from(reduced, sides), reduced.scale)
}
