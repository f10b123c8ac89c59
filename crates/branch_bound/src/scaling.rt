use boxed_problem::{Boxed, Limits, Prices, Side, limits_reach};
use row_prices::fits;
use std::alloc::{AllocError, Global};
use wide_num::List;

/// The magnitude that the prices of all rows together may reach.
const SHARES: u128 = 1 << 124;

/// How many bits of the prices are a fraction where all entries are 0.
const LEAST_BITS: u32 = 20;

/// The most bits that are a fraction.
const MOST_BITS: u32 = 100;

/// The greatest magnitude of an entry.
fn greatest_entry(problem: &Boxed) -> u128 {
    let mut most = 0u128;
    for entry in problem.entries.as_slice() {
        most = most.max(entry.value.unsigned_abs());
    }
    most
}

/// The scale of prices with so many bits of fraction.
pub fn scale_of(bits: u32) -> i128 {
    1i128.wrapping_shl(bits)
}

/// How many bits of the prices are a fraction: the more the greater the entries
/// are, since what is rounded off a price is taken as often as they say; and at
/// most as many as leave the prices half of the room that they share with the
/// objective.
pub fn fraction_bits(problem: &Boxed, zeros: List<i128>) -> u32 {
    let size = 128u32.wrapping_sub(greatest_entry(problem).leading_zeros());
    let mut bits = LEAST_BITS.wrapping_add(size).min(MOST_BITS);
    let mut fine = Prices {
        scale: 1,
        values: zeros,
    };
    for _ in 0..MOST_BITS {
        fine.scale = scale_of(bits.wrapping_add(1));
        if bits == 0 || fits(problem, &fine) {
            break;
        }
        bits = bits.wrapping_sub(1);
    }
    bits
}

/// The greater magnitude of a side's ends.
fn side_reach(side: Side) -> u128 {
    u128::from(side.lower.unsigned_abs().max(side.upper.unsigned_abs()))
}

/// Writes the magnitude of each row's limits.
fn write_limits(rows: &[Limits], sizes: &mut [u128]) {
    for (i, size) in sizes.iter_mut().enumerate() {
        if i < rows.len() {
            *size = limits_reach(rows[i]);
        }
    }
}

/// Adds the magnitude of each row's entries over the problem's box.
fn add_entries(problem: &Boxed, sizes: &mut [u128]) {
    let columns = problem.columns.as_slice();
    for entry in problem.entries.as_slice() {
        let row = entry.row as usize;
        let column = entry.column as usize;
        if row < sizes.len() && column < columns.len() {
            let part = entry.value.unsigned_abs();
            let part = part.saturating_mul(side_reach(columns[column]));
            sizes[row] = sizes[row].saturating_add(part);
        }
    }
}

/// The greatest magnitude that each row's price may have, so that all together
/// keep to what they share.
pub fn caps_of(alloc: Global, problem: &Boxed) -> Result<Vec<u128>, AllocError> {
    let rows = problem.rows.as_slice();
    let mut caps = vec![in alloc; 0u128; rows.len()]?;
    write_limits(rows, caps.as_mut_slice());
    add_entries(problem, caps.as_mut_slice());
    let share = SHARES.checked_div(rows.len() as u128).unwrap_or(0);
    for cap in caps.as_mut_slice().iter_mut() {
        *cap = share.checked_div(*cap).unwrap_or(0);
    }
    Ok(caps)
}
