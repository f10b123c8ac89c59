ghost use Rattle.std.specs.Prelude.{◌≡◌, ◌==◌, ◌<◌, ◌≤◌, length};
ghost use Rattle.boxed_problem.specs.Data.{problem_of};
ghost use Rattle.boxed_problem.specs.PriceFit.{FitsPrices};
ghost use Rattle.boxed_problem.specs.Sides.{reach, side_at};
ghost use Rattle.safe_bound.specs.PriceBound.{limit_number, limit_sum, paid_limit, reduced_cost, scaled_square, unit_price};
ghost use Rattle.safe_bound.specs.Reducing.{kept_cost, kept_square, reduced_constant};
ghost use Rattle.safe_bound.specs.Runs.{IsColumnRun, IsRunEnd};

use boxed_problem::{Boxed, Entry, Limits, Prices, Side};

/// What a column costs: `line` for each unit, and `square` for the square.
#[derive(Clone, Copy, Debug, Drop, PartialEq, Eq)]
pub struct Cost {
    pub line: i128,
    pub square: i128,
}

/// The first place from `first` on whose entry is of another column, or the
/// end of the entries.
pub fn run_end(entries: &[Entry], column: usize, first: usize) -> usize
    requires { first ≤ length entries.now }
    ensures { IsRunEnd entries.now column first result }
{
    for k in first..entries.len() {
        if entries[k].column as usize != column {
            return k;
        }
    }
    entries.len()
}

/// The number of a limit, 0 where there is none.
fn limit_number(limit: Option<i128>) -> i128
    ensures { result ≡ limit_number limit }
{
    match limit {
        Some(limit) => limit,
        None => 0,
    }
}

/// The limit that a price pays for: the lower one for a positive price, else
/// the upper one.
fn paid_limit(limits: Limits, price: i128) -> i128
    ensures { result ≡ paid_limit limits price }
{
    if price > 0 {
        limit_number(limits.lower)
    } else {
        limit_number(limits.upper)
    }
}

/// The sum, over the rows, of price times the limit that it pays for.
fn limit_sum(problem: &Boxed, prices: &Prices) -> i128
    requires { FitsPrices (problem_of problem.now) prices.now }
    ensures { result ≡ limit_sum (problem_of problem.now) prices.now }
{
    let rows = problem.rows.as_slice();
    let values = prices.values.as_slice();
    let mut sum = 0i128;
    for i in 0..rows.len() {
        sum += values[i] * paid_limit(rows[i], values[i]);
    }
    sum
}

/// What stands in the total whatever the sides: the limits' part and the
/// scaled constant.
pub fn reduced_constant(problem: &Boxed, prices: &Prices) -> i128
    requires { FitsPrices (problem_of problem.now) prices.now }
    ensures { result ≡ reduced_constant (problem_of problem.now) prices.now }
{
    limit_sum(problem, prices) + prices.scale * problem.constant
}

/// The price of one unit of a column, whose entries are those from `first` up
/// to `end`.
fn unit_price(problem: &Boxed, prices: &Prices, column: usize, first: usize, end: usize) -> i128
    requires fits { FitsPrices (problem_of problem.now) prices.now }
    requires column { column < length problem.now.columns }
    requires used { 0 < reach (side_at problem.now.columns column) }
    requires run { IsColumnRun problem.now.entries column first end }
    ensures { result ≡ unit_price (problem_of problem.now) prices.now column }
{
    let entries = problem.entries.as_slice();
    let values = prices.values.as_slice();
    let mut sum = 0i128;
    for k in first..end {
        let entry = entries[k];
        sum += values[entry.row as usize] * entry.value;
    }
    sum
}

/// A column's reduced cost and scaled square. Its box isn't the single 0, and
/// its entries are those from `first` up to `end`.
fn reduced_cost(problem: &Boxed, prices: &Prices, column: usize, first: usize, end: usize) -> Cost
    requires fits { FitsPrices (problem_of problem.now) prices.now }
    requires column { column < length problem.now.columns }
    requires used { 0 < reach (side_at problem.now.columns column) }
    requires run { IsColumnRun problem.now.entries column first end }
    ensures line { result.line ≡ reduced_cost (problem_of problem.now) prices.now column }
    ensures square { result.square ≡ scaled_square (problem_of problem.now) prices.now column }
{
    let lines = problem.line.as_slice();
    let squares = problem.square.as_slice();
    let units = unit_price(problem, prices, column, first, end);
    Cost {
        line: prices.scale * lines[column] - units,
        square: prices.scale * squares[column],
    }
}

/// Whether a side is the single 0.
fn is_idle(side: Side) -> bool
    ensures { result ≡ (reach side == 0) }
{
    side.lower == 0 && side.upper == 0
}

/// A column's reduced cost and scaled square; none for a column whose box is
/// the single 0, since it adds nothing. Its entries are those from `first` up
/// to `end`.
pub fn kept_cost(problem: &Boxed, prices: &Prices, column: usize, first: usize, end: usize) -> Cost
    requires fits { FitsPrices (problem_of problem.now) prices.now }
    requires column { column < length problem.now.columns }
    requires run { IsColumnRun problem.now.entries column first end }
    ensures line { result.line ≡ kept_cost (problem_of problem.now) prices.now column }
    ensures square { result.square ≡ kept_square (problem_of problem.now) prices.now column }
{
    let columns = problem.columns.as_slice();
    if is_idle(columns[column]) {
        Cost { line: 0, square: 0 }
    } else {
        reduced_cost(problem, prices, column, first, end)
    }
}
