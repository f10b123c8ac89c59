ghost use Rattle.std.specs.Prelude.{◌≡◌, ◌+◌, ◌*◌, ◌^◌, ◌≤◌, ◌≤ℤ◌, IfSome, true, pos, unsigned_abs};
ghost use Rattle.boxed_problem.specs.Sides.{reach};

use boxed_problem::{Limits, Side};

/// The greater magnitude of a side's ends.
pub fn side_reach(side: Side) -> u128
    ensures { result ≡ reach side }
{
    let lower = side.lower.unsigned_abs();
    let upper = side.upper.unsigned_abs();
    u128::from(if lower < upper { upper } else { lower })
}

/// The magnitude of what a column adds, or none where that leaves 128 bits.
pub fn part_size(line: i128, square: i128, side: Side) -> Option<u128>
    ensures { IfSome result
        (λ r. r ≡ unsigned_abs line * reach side + unsigned_abs square
        * (reach side * reach side)) }
{
    let far = side_reach(side);
    let linear = line.unsigned_abs().checked_mul(far)?;
    let curved = square.unsigned_abs().checked_mul(far * far)?;
    linear.checked_add(curved)
}

/// The place of a side nearest to where a curve with a square turns.
fn turning_place(cost: i128, square: i128, side: Side) -> i64 {
    let lower = i128::from(side.lower);
    let upper = i128::from(side.upper);
    let twice = square.wrapping_add(square);
    let turn = match square.wrapping_sub(cost).checked_div(twice) {
        Some(turn) => turn,
        None => lower,
    };
    i64::try_from(turn.max(lower).min(upper)).unwrap_or(side.lower)
}

/// Where on a side a column adds least. Where all of it is the same, that is
/// the upper end if the cost is about to fall, and the lower one if it isn't.
pub fn least_place(cost: i128, square: i128, side: Side, falls: bool) -> i64 {
    if square > 0 {
        turning_place(cost, square, side)
    } else if cost < 0 || (cost == 0 && falls) {
        side.upper
    } else {
        side.lower
    }
}

/// The limit that a price a little above (`up`) or below this one pays for, 0
/// where there is none.
pub fn paid_limit(limits: Limits, price: i128, up: bool) -> i128 {
    let limit = if price > 0 || (price == 0 && up) {
        limits.lower
    } else {
        limits.upper
    };
    limit.unwrap_or(0)
}
