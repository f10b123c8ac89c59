ghost use Rattle.std.specs.Prelude.{◌≡◌, ◌+◌, ◌*◌, ◌<◌, ◌≤◌, length, unsigned_abs, MatchOption};
ghost use Rattle.std.specs.List.{All};
ghost use Rattle.base_words.specs.Signs.{limit_size};
ghost use Rattle.boxed_problem.specs.BoxedFacts.{entry_size, limits_size, row_size, value_size};
ghost use Rattle.boxed_problem.specs.Sides.{reach};

use crate::parts::{Entry, Limits, Side};

/// The greatest magnitude of an objective, and of a row, of a problem.
pub const MAX_PART: u128 = 1 << 122;

/// The greater magnitude of a side's ends.
fn side_reach(side: Side) -> u64
    ensures { result ≡ reach side }
{
    let lower = side.lower.unsigned_abs();
    let upper = side.upper.unsigned_abs();
    if lower < upper { upper } else { lower }
}

/// The sum and a further product, or none exactly where that is above `most`.
pub fn add_product(sum: u128, a: u128, b: u128, most: u128) -> Option<u128>
    requires { sum ≤ most }
    ensures { MatchOption result (most < sum + a * b) (λ r. (r ≡ sum + a * b) × (r ≤ most)) }
{
    let product = a.checked_mul(b)?;
    if most - sum < product {
        return None;
    }
    Some(sum + product)
}

/// The sum and the magnitude of a column's part, or none exactly where that is
/// above `most`.
fn add_column(sum: u128, side: Side, line: i128, square: i128, most: u128) -> Option<u128>
    requires { sum ≤ most }
    ensures { MatchOption result
        (most
        < sum +
        (unsigned_abs line * reach side + unsigned_abs square * (reach side * reach side)))
        (λ r. (r
        ≡ sum +
        (unsigned_abs line * reach side + unsigned_abs square *
        (reach side * reach side))) × (r ≤ most)) }
{
    let far = u128::from(side_reach(side));
    let linear = add_product(sum, line.unsigned_abs(), far, most)?;
    add_product(linear, square.unsigned_abs(), far * far, most)
}

/// The magnitude of the constant and of the parts of all columns, or none
/// exactly where that is above `most`.
pub fn value_size_upto(
    columns: &[Side],
    constant: i128,
    line: &[i128],
    square: &[i128],
    most: u128,
) -> Option<u128>
    requires lines { length line.now ≡ length columns.now }
    requires squares { length square.now ≡ length columns.now }
    ensures { MatchOption result (most < value_size columns.now constant line.now square.now)
        (λ r. (r ≡ value_size columns.now constant line.now square.now) × (r ≤ most)) }
{
    let mut sum = constant.unsigned_abs();
    if most < sum {
        return None;
    }
    for j in 0..columns.len() {
        let Some(next) = add_column(sum, columns[j], line[j], square[j], most) else {
            return None;
        };
        sum = next;
    }
    Some(sum)
}

/// The magnitude of a limit, 0 where there is none.
fn limit_reach(limit: Option<i128>) -> u128
    ensures { result ≡ limit_size limit }
{
    match limit {
        Some(limit) => limit.unsigned_abs(),
        None => 0,
    }
}

/// The greater magnitude of a row's limits.
pub fn limits_reach(limits: Limits) -> u128
    ensures { result ≡ limits_size limits }
{
    let lower = limit_reach(limits.lower);
    let upper = limit_reach(limits.upper);
    if lower < upper { upper } else { lower }
}

/// The sum and the magnitude of an entry's part in a row, or none exactly
/// where that is above `most`.
fn add_entry(sum: u128, columns: &[Side], entry: Entry, row: usize, most: u128) -> Option<u128>
    requires sum { sum ≤ most }
    requires place { entry.column < length columns.now }
    ensures { MatchOption result (most < sum + entry_size columns.now row entry)
        (λ r. (r ≡ sum + entry_size columns.now row entry) × (r ≤ most)) }
{
    if entry.row as usize != row {
        return Some(sum);
    }
    let far = u128::from(side_reach(columns[entry.column as usize]));
    add_product(sum, entry.value.unsigned_abs(), far, most)
}

/// The magnitude of a row's limits and of the parts of all its entries, or
/// none exactly where that is above `most`.
pub fn row_size_upto(
    columns: &[Side],
    rows: &[Limits],
    entries: &[Entry],
    row: usize,
    most: u128,
) -> Option<u128>
    requires row { row < length rows.now }
    requires places { All (λ e. e.column < length columns.now) entries.now }
    ensures { MatchOption result (most < row_size columns.now rows.now entries.now row)
        (λ r. (r ≡ row_size columns.now rows.now entries.now row) × (r ≤ most)) }
{
    let mut sum = limits_reach(rows[row]);
    if most < sum {
        return None;
    }
    for entry in entries {
        let Some(next) = add_entry(sum, columns, *entry, row, most) else {
            return None;
        };
        sum = next;
    }
    Some(sum)
}
