ghost use Rattle.std.specs.Prelude.{◌≡◌, ◌^◌, ◌≤◌, ℕ, ◌<◌, IfSome, IsTrue, length};
ghost use Rattle.std.specs.List.{sum_by};
ghost use Rattle.boxed_problem.specs.Data.{problem_of};
ghost use Rattle.boxed_problem.specs.BoxedFacts.{limits_at, value_size};
ghost use Rattle.boxed_problem.specs.PriceFit.{FitsPrices, HasSign, price_size};
ghost use Rattle.base_words.specs.Sums.{number_at, size_below};
ghost use Rattle.safe_bound.specs.PriceWeights.{limit_weight, weight};

use crate::parts::{part_size, side_reach};
use boxed_problem::{Boxed, Entry, MAX_PRICE_SIZE, Prices, has_sign, limits_reach};

/// The magnitude of the objective, or none where it leaves 128 bits.
fn objective_size(problem: &Boxed) -> Option<u128>
    ensures { IfSome result
        (λ r. r
        ≡ value_size problem.now.columns problem.now.constant problem.now.line problem.now.square) }
{
    let columns = problem.columns.as_slice();
    let line = problem.line.as_slice();
    let square = problem.square.as_slice();
    let mut sum = problem.constant.unsigned_abs();
    for j in 0..columns.len() {
        let part = part_size(line[j], square[j], columns[j])?;
        sum = sum.checked_add(part)?;
    }
    Some(sum)
}

/// The magnitude of what the rows' limits add, or none where it leaves 128 bits.
fn limits_weight(problem: &Boxed, prices: &Prices) -> Option<u128>
    requires { length prices.now.values ≡ length problem.now.rows }
    ensures { IfSome result
        (λ r. r
        ≡ size_below (length problem.now.rows) (limit_weight (problem_of problem.now) prices.now)) }
{
    let rows = problem.rows.as_slice();
    let values = prices.values.as_slice();
    let mut sum = 0u128;
    for i in 0..rows.len() {
        let part = values[i].unsigned_abs().checked_mul(limits_reach(rows[i]))?;
        sum = sum.checked_add(part)?;
    }
    Some(sum)
}

/// The magnitude of what an entry costs, or none where it leaves 128 bits.
fn entry_weight(problem: &Boxed, prices: &Prices, entry: Entry) -> Option<u128>
    requires row { entry.row < length prices.now.values }
    requires column { entry.column < length problem.now.columns }
    ensures { IfSome result (λ r. r ≡ weight (problem_of problem.now) prices.now entry) }
{
    let price = prices.values.as_slice()[entry.row as usize];
    let side = problem.columns.as_slice()[entry.column as usize];
    let size = entry.value.unsigned_abs().checked_mul(side_reach(side))?;
    price.unsigned_abs().checked_mul(size)
}

/// The magnitude of what all entries cost, or none where it leaves 128 bits.
fn entries_weight(problem: &Boxed, prices: &Prices) -> Option<u128>
    requires { length prices.now.values ≡ length problem.now.rows }
    ensures { IfSome result
        (λ r. r ≡ sum_by (weight (problem_of problem.now) prices.now) problem.now.entries) }
{
    let mut sum = 0u128;
    for entry in problem.entries.as_slice() {
        let part = entry_weight(problem, prices, *entry)?;
        sum = sum.checked_add(part)?;
    }
    Some(sum)
}

/// The magnitude of the prices, or none where it leaves 128 bits.
fn prices_size(problem: &Boxed, prices: &Prices) -> Option<u128>
    requires { length prices.now.values ≡ length problem.now.rows }
    ensures { IfSome result (λ r. r ≡ price_size (problem_of problem.now) prices.now) }
{
    let objective = objective_size(problem)?;
    let scaled = prices.scale.unsigned_abs().checked_mul(objective)?;
    let limits = limits_weight(problem, prices)?;
    let entries = entries_weight(problem, prices)?;
    let rows = limits.checked_add(entries)?;
    let size = scaled.checked_add(rows)?;
    Some(size)
}

/// Whether each price has the sign that its row's limits ask for.
fn have_signs(problem: &Boxed, prices: &Prices) -> bool
    requires { length prices.now.values ≡ length problem.now.rows }
    ensures { IsTrue result → (i : ℕ) → i < length problem.now.rows →
        HasSign (limits_at problem.now.rows i) (number_at prices.now.values i) }
{
    let rows = problem.rows.as_slice();
    let values = prices.values.as_slice();
    for i in 0..rows.len() {
        if !has_sign(rows[i], values[i]) {
            return false;
        }
    }
    true
}

/// Whether the prices fit, found by one pass over columns, rows and entries.
pub fn fits(problem: &Boxed, prices: &Prices) -> bool
    ensures { IsTrue result → FitsPrices (problem_of problem.now) prices.now }
{
    if prices.values.len() != problem.rows.len() || prices.scale < 1 {
        return false;
    }
    if !have_signs(problem, prices) {
        return false;
    }
    match prices_size(problem, prices) {
        Some(size) => size <= MAX_PRICE_SIZE,
        None => false,
    }
}
