ghost use Rattle.std.specs.Prelude.{◌≡◌, ◌≤ℤ◌, IfOk, OnErr};
ghost use Rattle.boxed_problem.specs.Data.{problem_of};
ghost use Rattle.boxed_problem.specs.PriceFit.{FitsPrices};
ghost use Rattle.boxed_problem.specs.Sides.{Within};
ghost use Rattle.safe_bound.specs.PriceBound.{price_total};

use crate::ascent::{Ascent, ascent_from};
use crate::fitting::fits;
use boxed_problem::{Boxed, Prices, Side};
use safe_bound::price_total;
use std::alloc::AllocError;
use wide_num::List;

/// The prices that an ascent suggests, over the same scale.
fn suggested(
    problem: &Boxed,
    sides: &List<Side>,
    prices: &Prices,
    rounds: u32,
) -> Result<Prices, AllocError>
    requires sides { Within sides.now problem.now.columns }
    requires prices { FitsPrices (problem_of problem.now) prices.now }
    ensures { IfOk result (λ r. r.scale ≡ prices.now.scale) }
{
    let mut ascent = ascent_from(problem, sides, prices)?;
    ascent.ascend(rounds);
    let Ascent { values, .. } = ascent;
    Ok(Prices {
        scale: prices.scale,
        values,
    })
}

/// Raises the bound that the prices give over the sides, which lie in the
/// problem's box, by at most this many rounds over the rows. The prices fit
/// afterwards, the scale stays, and the bound isn't lower than before. Where
/// memory is refused the prices stay as they were.
pub fn improve(
    problem: &Boxed,
    sides: &List<Side>,
    prices: &mut Prices,
    rounds: u32,
) -> Result<(), AllocError>
    requires sides { Within sides.now problem.now.columns }
    requires prices { FitsPrices (problem_of problem.now) prices.old }
    ensures fits { FitsPrices (problem_of problem.now) prices.new }
    ensures scale { prices.new.scale ≡ prices.old.scale }
    ensures total { price_total (problem_of problem.now) prices.old sides.now
        ≤ℤ price_total (problem_of problem.now) prices.new sides.now }
    ensures err { OnErr result (prices.new ≡ prices.old) }
{
    let found = suggested(problem, sides, prices, rounds)?;
    if !fits(problem, &found) {
        return Ok(());
    }
    if price_total(problem, sides, prices) < price_total(problem, sides, &found) {
        *prices = found;
    }
    Ok(())
}
