ghost use Rattle.std.specs.Prelude.{◌≡◌, ◌<◌, ◌≤◌, ◌^◌, length};
ghost use Rattle.std.specs.List.{All, sum_by};
ghost use Rattle.boxed_problem.specs.BoxedFacts.{entry_size};
ghost use Rattle.propagate.specs.Ranges.{high_activity, high_part, low_activity, low_part, misses};

use crate::range::Range;
use crate::ranging::ends;
use boxed_problem::{Entry, Limits, Side, is_at_least, is_at_most};

/// What an entry adds to the activity of a row, from the least to the greatest.
fn entry_range(sides: &[Side], entry: Entry, row: usize) -> Range
    requires place { entry.column < length sides.now }
    requires fits { entry_size sides.now row entry ≤ 2 ^ 122 }
    ensures low { result.low ≡ low_part sides.now row entry }
    ensures high { result.high ≡ high_part sides.now row entry }
{
    if entry.row as usize != row {
        return Range { low: 0, high: 0 };
    }
    ends(entry.value, sides[entry.column as usize])
}

/// The range of a row's activity over the sides: no activity of a point on
/// them is outside.
pub fn row_range(sides: &[Side], entries: &[Entry], row: usize) -> Range
    requires places { All (λ e. e.column < length sides.now) entries.now }
    requires fits { sum_by (entry_size sides.now row) entries.now ≤ 2 ^ 122 }
    ensures low { result.low ≡ low_activity entries.now sides.now row }
    ensures high { result.high ≡ high_activity entries.now sides.now row }
{
    let mut low = 0i128;
    let mut high = 0i128;
    for entry in entries {
        let part = entry_range(sides, *entry, row);
        low += part.low;
        high += part.high;
    }
    Range { low, high }
}

/// Whether no number of a range lies in the limits.
pub fn is_missed(limits: Limits, range: Range) -> bool
    ensures { result ≡ misses limits range.low range.high }
{
    !(is_at_least(limits.lower, range.high) && is_at_most(limits.upper, range.low))
}
