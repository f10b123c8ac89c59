ghost use Rattle.std.specs.Prelude.{◌≡◌, ◌*◌, ◌*ℤ◌, ◌^◌, ◌≤◌, ◌<◌, ◌↔◌, IsTrue, length, unsigned_abs};
ghost use Rattle.std.specs.List.{All, sum_by};
ghost use Rattle.boxed_problem.specs.Data.{problem_of};
ghost use Rattle.boxed_problem.specs.BoxedFacts.{entry_size};
ghost use Rattle.boxed_problem.specs.Optimum.{Feasible, meets_all};
ghost use Rattle.boxed_problem.specs.Points.{InBox};
ghost use Rattle.boxed_problem.specs.Rows.{activity, activity_part, is_above, is_below, meets};

use crate::parts::{Entry, Limits, Side};
use crate::problem::Boxed;
use wide_num::List;

/// Whether a point has one value for each side, and each value lies on its side.
fn lies_in(sides: &[Side], point: &[i64]) -> bool
    ensures { IsTrue result ↔ InBox sides.now point.now }
{
    if point.len() != sides.len() {
        return false;
    }
    for j in 0..sides.len() {
        if point[j] < sides[j].lower || sides[j].upper < point[j] {
            return false;
        }
    }
    true
}

/// The product of an entry and the value of its column.
pub fn product(value: i128, x: i64) -> i128
    requires { unsigned_abs value * unsigned_abs x ≤ 2 ^ 122 }
    ensures { result ≡ value *ℤ x }
{
    value * i128::from(x)
}

/// What an entry adds to the activity of a row.
fn entry_activity(sides: &[Side], entry: Entry, point: &[i64], row: usize) -> i128
    requires inside { InBox sides.now point.now }
    requires place { entry.column < length sides.now }
    requires fits { entry_size sides.now row entry ≤ 2 ^ 122 }
    ensures { result ≡ activity_part point.now row entry }
{
    if entry.row as usize == row {
        product(entry.value, point[entry.column as usize])
    } else {
        0
    }
}

/// The activity of a row at a point on these sides.
pub fn row_activity(sides: &[Side], entries: &[Entry], point: &[i64], row: usize) -> i128
    requires inside { InBox sides.now point.now }
    requires places { All (λ e. e.column < length sides.now) entries.now }
    requires fits { sum_by (entry_size sides.now row) entries.now ≤ 2 ^ 122 }
    ensures { result ≡ activity entries.now point.now row }
{
    let mut sum = 0i128;
    for entry in entries {
        sum += entry_activity(sides, *entry, point, row);
    }
    sum
}

/// Whether a number is at least a lower limit, if there is one.
pub fn is_at_least(limit: Option<i128>, number: i128) -> bool
    ensures { result ≡ is_above limit number }
{
    match limit {
        Some(lower) => lower <= number,
        None => true,
    }
}

/// Whether a number is at most an upper limit, if there is one.
pub fn is_at_most(limit: Option<i128>, number: i128) -> bool
    ensures { result ≡ is_below limit number }
{
    match limit {
        Some(upper) => number <= upper,
        None => true,
    }
}

/// Whether an activity lies in the limits.
pub fn is_met(limits: Limits, activity: i128) -> bool
    ensures { result ≡ meets limits activity }
{
    is_at_least(limits.lower, activity) && is_at_most(limits.upper, activity)
}

impl Boxed {
    /// Whether a point of the box meets all rows.
    pub fn meets_rows(&self, point: &List<i64>) -> bool
        requires { InBox self.now.columns point.now }
        ensures { result ≡ meets_all (problem_of self.now) point.now }
    {
        let sides = self.columns.as_slice();
        let rows = self.rows.as_slice();
        let entries = self.entries.as_slice();
        let values = point.as_slice();
        for row in 0..rows.len() {
            if !is_met(rows[row], row_activity(sides, entries, values, row)) {
                return false;
            }
        }
        true
    }

    /// Whether a point has one value for each column, each in its box, and its
    /// activity lies in the limits of each row.
    pub fn feasible(&self, point: &List<i64>) -> bool
        ensures { IsTrue result ↔ Feasible (problem_of self.now) point.now }
    {
        lies_in(self.columns.as_slice(), point.as_slice()) && self.meets_rows(point)
    }
}
