ghost use Rattle.std.specs.Prelude.{◌≡◌, ◌≤ℤ◌, ℤ, List};
ghost use Rattle.boxed_problem.specs.Data.{problem_of};
ghost use Rattle.boxed_problem.specs.Objective.{value_of};
ghost use Rattle.boxed_problem.specs.Optimum.{Feasible};
ghost use Rattle.boxed_problem.specs.Points.{InBox};
ghost use Rattle.boxed_problem.specs.PriceFit.{FitsPrices};
ghost use Rattle.boxed_problem.specs.Sides.{Within};
ghost use Rattle.safe_bound.specs.PriceBound.{IsPriceBound, price_total};

use crate::costs::{kept_cost, reduced_constant, run_end};
use crate::least_values::column_least;
use boxed_problem::{Boxed, Prices, Side};
use wide_num::{List, ceil_div};

/// The scale times the bound that the prices give over the sides, before it is
/// rounded up.
pub fn price_total(problem: &Boxed, sides: &List<Side>, prices: &Prices) -> i128
    requires sides { Within sides.now problem.now.columns }
    requires prices { FitsPrices (problem_of problem.now) prices.now }
    ensures { result ≡ price_total (problem_of problem.now) prices.now sides.now }
{
    let entries = problem.entries.as_slice();
    let box_sides = sides.as_slice();
    let mut total = reduced_constant(problem, prices);
    let mut first = 0;
    for j in 0..box_sides.len() {
        let end = run_end(entries, j, first);
        let cost = kept_cost(problem, prices, j, first, end);
        total += column_least(cost.line, cost.square, box_sides[j]);
        first = end;
    }
    total
}

/// The bound that the prices give over the sides, which lie in the problem's
/// box: the sum of price times lower limit for positive prices and price times
/// upper limit for negative ones, and the column-by-column least of the scale
/// times the objective less the sum of price times activity, both divided by
/// the scale and rounded up. No feasible point on the sides has a value below it.
pub fn bound(problem: &Boxed, sides: &List<Side>, prices: &Prices) -> i128
    requires sides { Within sides.now problem.now.columns }
    requires prices { FitsPrices (problem_of problem.now) prices.now }
    ensures number { IsPriceBound (problem_of problem.now) prices.now sides.now result }
    ensures below { (x : List ℤ) → Feasible (problem_of problem.now) x → InBox sides.now x →
        result ≤ℤ value_of (problem_of problem.now) x }
{
    ceil_div(price_total(problem, sides, prices), prices.scale)
}
