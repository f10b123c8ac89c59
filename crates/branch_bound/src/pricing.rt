ghost use Rattle.std.specs.Prelude.{◌≡◌, ℕ, ◌<◌, pos, IfOk, length};
ghost use Rattle.boxed_problem.specs.Data.{problem_of};
ghost use Rattle.boxed_problem.specs.PriceFit.{FitsPrices};
ghost use Rattle.base_words.specs.Sums.{number_at};
ghost use Rattle.branch_bound.specs.Bettering.{IsPriced};

use crate::gridding::{Grid, grid_of};
use crate::pacing::Pace;
use crate::scaling::{caps_of, fraction_bits, scale_of};
use boxed_problem::{Boxed, Prices};
use dual_simplex::Simplex;
use row_prices::fits;
use safe_bound::{Reduced, reduce_by};
use std::alloc::{AllocError, Global};
use wide_num::List;

/// What bounds the values in a box: the objective itself, the objective with
/// the present prices taken into it, and the grid of the values; and what
/// suggests prices: the simplex, the caps of the rows' prices and the bits of
/// their fraction, and the simplex's last point.
#[derive(Drop)]
pub struct Pricing {
    pub prices: Prices,
    pub plain: Reduced,
    pub priced: Reduced,
    pub grid: Grid,
    pub pace: Pace,
    pub simplex: Simplex,
    pub caps: Vec<u128>,
    pub bits: u32,
    pub point: Vec<i64>,
}

/// So many times 0.
fn zeros(alloc: Global, times: usize) -> Result<List<i128>, AllocError>
    ensures long { IfOk result (λ xs. length xs ≡ times) }
    ensures all { IfOk result (λ xs. (k : ℕ) → k < times → number_at xs k ≡ pos 0) }
{
    let mut xs = List::new(alloc);
    for _ in 0..times {
        xs.push(0)?;
    }
    Ok(xs)
}

/// The prices 0, over the scale 1.
fn no_prices(alloc: Global, problem: &Boxed) -> Result<Prices, AllocError>
    ensures { IfOk result (λ prices. FitsPrices (problem_of problem.now) prices) }
{
    let values = zeros(alloc, problem.rows.len())?;
    Ok(Prices { scale: 1, values })
}

/// The prices that a search begins with: all 0, over a fine scale where it fits.
fn first_prices(alloc: Global, problem: &Boxed) -> Result<Prices, AllocError>
    ensures { IfOk result (λ prices. FitsPrices (problem_of problem.now) prices) }
{
    let bits = fraction_bits(problem, zeros(alloc, problem.rows.len())?);
    let values = zeros(alloc, problem.rows.len())?;
    let fine = Prices {
        scale: scale_of(bits),
        values,
    };
    if fits(problem, &fine) {
        return Ok(fine);
    }
    no_prices(alloc, problem)
}

/// What a search begins with.
pub fn pricing_of(alloc: Global, problem: &Boxed) -> Result<Pricing, AllocError>
    ensures { IfOk result (λ r. IsPriced (problem_of problem.now) r) }
{
    let none = no_prices(alloc, problem)?;
    let plain = reduce_by(problem, &none)?;
    let prices = first_prices(alloc, problem)?;
    let priced = reduce_by(problem, &prices)?;
    let grid = grid_of(alloc, problem)?;
    let bits = prices.scale.trailing_zeros();
    let caps = caps_of(alloc, problem)?;
    let point = vec![in alloc; 0i64; problem.columns.len()]?;
    Ok(Pricing {
        prices,
        plain,
        priced,
        grid,
        pace: Pace::first(),
        simplex: Simplex::idle(alloc, problem),
        caps,
        bits,
        point,
    })
}
