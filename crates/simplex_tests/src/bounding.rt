use boxed_problem::{Boxed, Limits, Side};
use dual_simplex::{Simplex, Stop, add_times};
use std::alloc::{AllocError, Global};

/// How many bits of the prices are a fraction.
pub const BITS: u32 = 20;

/// A price times the limit that it pays for.
fn paid(price: i128, limits: Limits) -> i128 {
    let limit = if price > 0 {
        limits.lower
    } else {
        limits.upper
    };
    price.wrapping_mul(limit.unwrap_or(0))
}

/// The least that a column adds on a side.
fn column_least(cost: i128, square: i128, side: Side) -> i128 {
    let low = i128::from(side.lower);
    let high = i128::from(side.upper);
    let turn = square
        .saturating_sub(cost)
        .checked_div_euclid(square.saturating_mul(2))
        .unwrap_or(low);
    let mut found = i128::MAX;
    for x in [low, turn.max(low).min(high), high] {
        let value = square.wrapping_mul(x).wrapping_add(cost).wrapping_mul(x);
        found = found.min(value);
    }
    found
}

/// The costs of the columns, less what the prices pay for them.
fn reduced(alloc: Global, problem: &Boxed, prices: &[i128]) -> Result<Vec<i128>, AllocError> {
    let mut costs = Vec::new(alloc);
    for number in problem.line.as_slice() {
        costs.push(number.wrapping_shl(BITS))?;
    }
    let list = costs.as_mut_slice();
    for entry in problem.entries.as_slice() {
        let row = entry.row as usize;
        let column = entry.column as usize;
        if row < prices.len() && column < list.len() {
            list[column] = list[column].wrapping_sub(prices[row].wrapping_mul(entry.value));
        }
    }
    Ok(costs)
}

/// The bound that prices give over sides, rounded up.
pub fn bound(
    alloc: Global,
    problem: &Boxed,
    sides: &[Side],
    prices: &[i128],
) -> Result<i128, AllocError> {
    let costs = reduced(alloc, problem, prices)?;
    let list = costs.as_slice();
    let squares = problem.square.as_slice();
    let mut sum = 0i128;
    for (price, limits) in prices.iter().zip(problem.rows.as_slice()) {
        sum = sum.wrapping_add(paid(*price, *limits));
    }
    for (place, side) in sides.iter().enumerate() {
        if place < list.len() && place < squares.len() {
            let square = squares[place].wrapping_shl(BITS);
            sum = sum.wrapping_add(column_least(list[place], square, *side));
        }
    }
    Ok(sum.wrapping_add((1 << BITS) - 1) >> BITS)
}

/// The bound over sides that the prices of the present basis give.
pub fn bound_of(
    alloc: Global,
    simplex: &Simplex,
    problem: &Boxed,
    sides: &[Side],
) -> Result<i128, AllocError> {
    let rows = problem.rows.as_slice();
    let caps = vec![in alloc; 1u128 << 60; rows.len()]?;
    let mut prices = vec![in alloc; 0i128; rows.len()]?;
    simplex.prices(rows, caps.as_slice(), BITS, prices.as_mut_slice());
    bound(alloc, problem, sides, prices.as_slice())
}

/// The bound over sides that the prices of the present basis give with a multiple
/// of those of a ray.
pub fn bound_on_ray(
    alloc: Global,
    simplex: &Simplex,
    problem: &Boxed,
    sides: &[Side],
    stop: Stop,
    by: i128,
) -> Result<Option<i128>, AllocError> {
    let Stop::Endless(leaving) = stop else {
        return Ok(None);
    };
    let rows = problem.rows.as_slice();
    let caps = vec![in alloc; 1u128 << 60; rows.len()]?;
    let caps = caps.as_slice();
    let mut prices = vec![in alloc; 0i128; rows.len()]?;
    let mut more = vec![in alloc; 0i128; rows.len()]?;
    simplex.prices(rows, caps, BITS, prices.as_mut_slice());
    simplex.ray(leaving, rows, caps, BITS, more.as_mut_slice());
    add_times(rows, caps, prices.as_mut_slice(), more.as_slice(), by);
    Ok(Some(bound(alloc, problem, sides, prices.as_slice())?))
}
