ghost use Rattle.std.specs.Prelude.{◌≡◌, ◌<◌, ◌≤◌, IfOk, length};
ghost use Rattle.std.specs.List.{All};
ghost use Rattle.std.specs.List.Sorted.{IsPermutation};
ghost use Rattle.boxed_problem.specs.Data.{problem_of};
ghost use Rattle.boxed_problem.specs.PriceFit.{FitsPrices};
ghost use Rattle.boxed_problem.specs.Sides.{Within};
ghost use Rattle.row_prices.specs.Ascending.{IsAscent};

use crate::parts::{least_place, paid_limit, side_reach};
use boxed_problem::{Boxed, Entry, Limits, Prices, Side, limits_reach};
use safe_bound::{Reduced, reduce_by};
use std::alloc::AllocError;
use wide_num::List;

/// The magnitude that the prices of all rows together may reach.
const SHARES: u128 = 1 << 124;

/// What an ascent works on: the problem's columns, the sides, the rows, the
/// entries row by row, the square and the present reduced cost of each column,
/// and the present price of each row.
#[derive(Drop)]
pub struct Ascent {
    pub columns: List<Side>,
    pub sides: List<Side>,
    pub rows: List<Limits>,
    pub entries: List<Entry>,
    pub line: List<i128>,
    pub square: List<i128>,
    pub values: List<i128>,
    pub ghost facts: { IsAscent columns sides rows entries line square values },
}

/// A copy of entries, row by row.
fn by_rows(entries: &List<Entry>) -> Result<List<Entry>, AllocError>
    ensures { IfOk result (λ r. IsPermutation entries.now r) }
{
    let mut sorted = entries.copied()?.into_vec();
    sorted.sort_unstable_by_key(|entry| entry.row);
    Ok(List::from_vec(sorted))
}

/// The ascent from these prices over the sides.
pub fn ascent_from(
    problem: &Boxed,
    sides: &List<Side>,
    prices: &Prices,
) -> Result<Ascent, AllocError>
    requires sides { Within sides.now problem.now.columns }
    requires prices { FitsPrices (problem_of problem.now) prices.now }
{
    let Reduced {
        columns,
        line,
        square,
        ..
    } = reduce_by(problem, prices)?;
    let sides = sides.copied()?;
    let rows = problem.rows.copied()?;
    let entries = by_rows(&problem.entries)?;
    let values = prices.values.copied()?;
    Ok(Ascent {
        columns,
        sides,
        rows,
        entries,
        line,
        square,
        values,
    })
}

/// Changes the costs of the columns of a row's entries by a change of its price.
fn shift_costs(line: &mut List<i128>, entries: &[Entry], first: usize, end: usize, change: i128)
    requires range { end ≤ length entries.now }
    requires places { All (λ e. e.column < length line.old) entries.now }
    ensures { length line.new ≡ length line.old }
{
    for k in first..end {
        let entry = entries[k];
        let column = entry.column as usize;
        let cost = line.as_slice()[column];
        let shifted = cost.saturating_sub(change.saturating_mul(entry.value));
        line.set(column, shifted);
    }
}

impl Ascent {
    /// The row of the entry at a place.
    pub fn row_at(&self, place: usize) -> usize
        requires { place < length self.now.entries }
        ensures { result < length self.now.rows }
    {
        self.entries.as_slice()[place].row as usize
    }

    /// The present price of a row.
    pub fn price_of(&self, row: usize) -> i128
        requires { row < length self.now.rows }
    {
        self.values.as_slice()[row]
    }

    /// The limits of a row.
    pub fn limits_of(&self, row: usize) -> Limits
        requires { row < length self.now.rows }
    {
        self.rows.as_slice()[row]
    }

    /// The end of the entries of a row that begin at `first`.
    pub fn row_end(&self, first: usize) -> usize
        requires { first < length self.now.entries }
        ensures { (first < result) × (result ≤ length self.now.entries) }
    {
        let entries = self.entries.as_slice();
        let row = entries[first].row;
        for k in first + 1..entries.len() {
            if entries[k].row != row {
                return k;
            }
        }
        entries.len()
    }

    /// How much more the row of these entries adds for each unit of its price,
    /// a little above (`up`) or below a price.
    pub fn slope_at(&self, first: usize, end: usize, price: i128, up: bool) -> i128
        requires first { first < end }
        requires end { end ≤ length self.now.entries }
    {
        let entries = self.entries.as_slice();
        let sides = self.sides.as_slice();
        let line = self.line.as_slice();
        let square = self.square.as_slice();
        let row = self.row_at(first);
        let change = price.wrapping_sub(self.price_of(row));
        let mut slope = paid_limit(self.limits_of(row), price, up);
        for k in first..end {
            let entry = entries[k];
            let column = entry.column as usize;
            let cost = line[column].wrapping_sub(change.wrapping_mul(entry.value));
            let falls = (entry.value > 0) == up;
            let place = least_place(cost, square[column], sides[column], falls);
            slope = slope.wrapping_sub(entry.value.wrapping_mul(i128::from(place)));
        }
        slope
    }

    /// The magnitude of the row of these entries, or none where it leaves 128 bits.
    fn row_size(&self, first: usize, end: usize) -> Option<u128>
        requires first { first < end }
        requires end { end ≤ length self.now.entries }
    {
        let entries = self.entries.as_slice();
        let columns = self.columns.as_slice();
        let mut sum = limits_reach(self.limits_of(self.row_at(first)));
        for k in first..end {
            let far = side_reach(columns[entries[k].column as usize]);
            let part = entries[k].value.unsigned_abs().checked_mul(far)?;
            sum = sum.checked_add(part)?;
        }
        Some(sum)
    }

    /// The greatest magnitude that the price of the row of these entries may
    /// have: the row's share, or that of its present price.
    fn most_price(&self, first: usize, end: usize) -> u128
        requires first { first < end }
        requires end { end ≤ length self.now.entries }
    {
        let present = self.price_of(self.row_at(first)).unsigned_abs();
        let share = SHARES / self.rows.len() as u128;
        match self.row_size(first, end) {
            Some(size) if size > 0 => present.max(share / size),
            _ => present,
        }
    }

    /// The last price, upwards or downwards, that the row of these entries may
    /// have by its limits and its share.
    pub fn last_price(&self, first: usize, end: usize, up: bool) -> i128
        requires first { first < end }
        requires end { end ≤ length self.now.entries }
    {
        let limits = self.limits_of(self.row_at(first));
        let most = i128::try_from(self.most_price(first, end)).unwrap_or(i128::MAX);
        if up {
            if limits.lower.is_some() { most } else { 0 }
        } else if limits.upper.is_some() {
            -most
        } else {
            0
        }
    }

    /// Sets the price of the row of these entries, and the reduced costs of its
    /// columns with it.
    pub fn set_price(&mut self, first: usize, end: usize, price: i128)
        requires first { first < end }
        requires end { end ≤ length self.old.entries }
        ensures { self.new.entries ≡ self.old.entries }
    {
        let row = self.row_at(first);
        let change = price.saturating_sub(self.price_of(row));
        shift_costs(&mut self.line, self.entries.as_slice(), first, end, change);
        self.values.set(row, price);
    }
}
