ghost use Rattle.std.specs.Prelude.{◌≡◌, ℕ, ◌*◌, ◌+ℤ◌, ◌-ℤ◌, ◌*ℤ◌, ◌^◌, ◌<◌, ◌≤◌, length, slice_set, unsigned_abs};
ghost use Rattle.boxed_problem.specs.Sides.{reach, side_at};
ghost use Rattle.propagate.specs.Ranged.{AreRanges, IsInside, high_end, low_end, moved};

use crate::range::Range;
use crate::sparse::Sparse;
use boxed_problem::{Side, product};
use wide_num::List;

/// The least and the greatest of a number's products with a side's values.
pub fn ends(value: i128, side: Side) -> Range
    requires { unsigned_abs value * reach side ≤ 2 ^ 122 }
    ensures low { result.low ≡ low_end value side }
    ensures high { result.high ≡ high_end value side }
{
    let first = product(value, side.lower);
    let last = product(value, side.upper);
    if last < first {
        Range {
            low: last,
            high: first,
        }
    } else {
        Range {
            low: first,
            high: last,
        }
    }
}

/// A sum, after one of its parts was changed.
fn replace_part(sum: i128, before: i128, after: i128) -> i128
    requires sum { unsigned_abs sum ≤ 2 ^ 122 }
    requires before { unsigned_abs before ≤ 2 ^ 122 }
    requires after { unsigned_abs after ≤ 2 ^ 122 }
    ensures { result ≡ (sum -ℤ before) +ℤ after }
{
    sum - before + after
}

/// A row's range, after the side of one entry's column was changed.
fn move_range(range: Range, value: i128, old: Side, new: Side) -> Range
    requires old_fits { unsigned_abs value * reach old ≤ 2 ^ 122 }
    requires new_fits { unsigned_abs value * reach new ≤ 2 ^ 122 }
    requires low { unsigned_abs range.low ≤ 2 ^ 122 }
    requires high { unsigned_abs range.high ≤ 2 ^ 122 }
    ensures { result ≡ moved value old new range }
{
    let before = ends(value, old);
    let after = ends(value, new);
    Range {
        low: replace_part(range.low, before.low, after.low),
        high: replace_part(range.high, before.high, after.high),
    }
}

/// Brings the ranges of a column's rows up to date, before its side is changed.
pub fn shift(sparse: &Sparse, sides: &[Side], ranges: &mut List<Range>, column: usize, side: Side)
    requires long { length sides.now ≡ length sparse.now.columns }
    requires column { column < length sides.now }
    requires inside { (j : ℕ) → IsInside (side_at sides.now j) (side_at sparse.now.columns j) }
    requires side { IsInside side (side_at sparse.now.columns column) }
    requires ranges { AreRanges (length sparse.now.rows) sparse.now.entries sides.now ranges.old }
    ensures { AreRanges (length sparse.now.rows) sparse.now.entries
        (slice_set sides.now column side) ranges.new }
{
    let entries = sparse.entries.as_slice();
    let starts = sparse.starts.as_slice();
    let start = starts[column];
    let end = starts[column + 1];
    let old = sides[column];
    for k in start..end {
        let entry = entries[k];
        let row = entry.row as usize;
        let range = move_range(ranges.as_slice()[row], entry.value, old, side);
        ranges.set(row, range);
    }
}
