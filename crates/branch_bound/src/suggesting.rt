ghost use Rattle.std.specs.Prelude.{◌≡◌, IfOk, IfSome, OnOk};
ghost use Rattle.boxed_problem.specs.Data.{problem_of};
ghost use Rattle.boxed_problem.specs.PriceFit.{FitsPrices};
ghost use Rattle.boxed_problem.specs.Sides.{Within};
ghost use Rattle.branch_bound.specs.Bettering.{IsPriced};

use crate::pricing::Pricing;
use boxed_problem::{Boxed, Prices, Side};
use dual_simplex::{Leaving, Simplex, Stop, add_times};
use row_prices::{fits, improve};
use safe_bound::{reduce_by, total_from};
use std::alloc::{AllocError, Global};
use wide_num::List;

/// The most entries of a simplex's table, which is then of 32 MB.
const MOST_ENTRIES: usize = 1 << 22;

/// How often the pieces of columns with squares are cut anew, round the point of
/// the simplex before.
const CENTRINGS: u32 = 3;

/// How often the prices of a ray are added.
const RAY_TIMES: i128 = 1 << 20;

/// Whether some column has a square.
fn is_curved(problem: &Boxed) -> bool {
    for square in problem.square.as_slice() {
        if *square > 0 {
            return true;
        }
    }
    false
}

/// A simplex over the sides, whose columns with squares are cut round its own
/// best point.
fn simplex_on(
    alloc: Global,
    problem: &Boxed,
    sides: &[Side],
    pivots: u32,
    point: &mut [i64],
) -> Result<Simplex, AllocError>
    ensures { IfOk result (λ s. problem_of s.problem.value ≡ problem_of problem.now) }
{
    let mut simplex = Simplex::new(alloc, problem, sides, &[], MOST_ENTRIES)?;
    let times = if is_curved(problem) { CENTRINGS } else { 0 };
    for _ in 0..times {
        simplex.improve(problem, sides, pivots);
        simplex.write_point(sides, point);
        simplex = Simplex::new(alloc, problem, sides, point, MOST_ENTRIES)?;
    }
    Ok(simplex)
}

/// Takes prices in place of the present ones, where they fit and what they give
/// over the sides is greater.
fn take_better(
    problem: &Boxed,
    sides: &List<Side>,
    pricing: &mut Pricing,
    found: Prices,
) -> Result<(), AllocError>
    requires sides { Within sides.now problem.now.columns }
    requires pricing { IsPriced (problem_of problem.now) pricing.old }
    ensures { OnOk result (IsPriced (problem_of problem.now) pricing.new) }
{
    if !fits(problem, &found) {
        return Ok(());
    }
    let priced = reduce_by(problem, &found)?;
    let present = total_from(&pricing.priced, sides);
    let total = total_from(&priced, sides);
    if present < total {
        pricing.prices = found;
        pricing.priced = priced;
    }
    Ok(())
}

/// The prices of the simplex's present basis.
fn suggested(alloc: Global, problem: &Boxed, pricing: &Pricing) -> Result<Prices, AllocError> {
    let rows = problem.rows.as_slice();
    let caps = pricing.caps.as_slice();
    let mut values = vec![in alloc; 0i128; rows.len()]?;
    if caps.len() == rows.len() {
        let list = values.as_mut_slice();
        pricing.simplex.prices(rows, caps, pricing.bits, list);
    }
    Ok(Prices {
        scale: pricing.prices.scale,
        values: List::from_vec(values),
    })
}

/// The prices of the simplex's present basis with a multiple of those of a ray.
fn on_ray(
    alloc: Global,
    problem: &Boxed,
    pricing: &Pricing,
    leaving: Leaving,
) -> Result<Prices, AllocError> {
    let rows = problem.rows.as_slice();
    let caps = pricing.caps.as_slice();
    let mut values = vec![in alloc; 0i128; rows.len()]?;
    let mut more = vec![in alloc; 0i128; rows.len()]?;
    if caps.len() == rows.len() {
        let list = values.as_mut_slice();
        let others = more.as_mut_slice();
        pricing.simplex.prices(rows, caps, pricing.bits, list);
        pricing
            .simplex
            .ray(leaving, rows, caps, pricing.bits, others);
        add_times(rows, caps, list, others, RAY_TIMES);
    }
    Ok(Prices {
        scale: pricing.prices.scale,
        values: List::from_vec(values),
    })
}

/// The prices that a ray of the simplex leads to, where it stopped at one and
/// they fit.
pub fn ray_prices(
    alloc: Global,
    problem: &Boxed,
    pricing: &Pricing,
    stop: Stop,
) -> Result<Option<Prices>, AllocError>
    ensures { IfOk result
        (λ found. IfSome found (λ prices. FitsPrices (problem_of problem.now) prices)) }
{
    let Stop::Endless(leaving) = stop else {
        return Ok(None);
    };
    let found = on_ray(alloc, problem, pricing, leaving)?;
    if fits(problem, &found) {
        return Ok(Some(found));
    }
    Ok(None)
}

/// Improves the prices over the sides row by row.
fn ascend(problem: &Boxed, sides: &List<Side>, pricing: &mut Pricing) -> Result<(), AllocError>
    requires sides { Within sides.now problem.now.columns }
    requires pricing { IsPriced (problem_of problem.now) pricing.old }
    ensures { OnOk result (IsPriced (problem_of problem.now) pricing.new) }
{
    improve(problem, sides, &mut pricing.prices, pricing.pace.rounds)?;
    pricing.priced = reduce_by(problem, &pricing.prices)?;
    Ok(())
}

/// Makes the simplex at the first box of a search, on its sides.
fn prepare(
    alloc: Global,
    problem: &Boxed,
    sides: &List<Side>,
    pricing: &mut Pricing,
) -> Result<(), AllocError>
    requires pricing { IsPriced (problem_of problem.now) pricing.old }
    ensures { OnOk result (IsPriced (problem_of problem.now) pricing.new) }
{
    if pricing.simplex.is_idle() && pricing.pace.is_first() {
        let pivots = pricing.pace.pivots();
        let point = pricing.point.as_mut_slice();
        pricing.simplex = simplex_on(alloc, problem, sides.as_slice(), pivots, point)?;
    }
    Ok(())
}

/// Improves the simplex's basis over the sides, and notes its point.
fn run_simplex(problem: &Boxed, sides: &List<Side>, pricing: &mut Pricing) -> Stop
    requires { IsPriced (problem_of problem.now) pricing.old }
    ensures { IsPriced (problem_of problem.now) pricing.new }
{
    let pivots = pricing.pace.pivots();
    let stop = pricing.simplex.improve(problem, sides.as_slice(), pivots);
    let point = pricing.point.as_mut_slice();
    pricing.simplex.write_point(sides.as_slice(), point);
    stop
}

/// Improves the prices over the sides by the simplex, or, where its table would
/// be too great or is lost, row by row. It tells why the simplex stopped.
pub fn raise_prices(
    alloc: Global,
    problem: &Boxed,
    sides: &List<Side>,
    pricing: &mut Pricing,
) -> Result<Stop, AllocError>
    requires sides { Within sides.now problem.now.columns }
    requires pricing { IsPriced (problem_of problem.now) pricing.old }
    ensures { OnOk result (IsPriced (problem_of problem.now) pricing.new) }
{
    prepare(alloc, problem, sides, pricing)?;
    let stop = run_simplex(problem, sides, pricing);
    if pricing.simplex.is_idle() || matches!(stop, Stop::Lost) {
        ascend(problem, sides, pricing)?;
        return Ok(stop);
    }
    let found = suggested(alloc, problem, pricing)?;
    take_better(problem, sides, pricing, found)?;
    Ok(stop)
}
