ghost use Rattle.std.specs.Prelude.{◌≤◌, ◌+ℤ◌, ◌-ℤ◌, pos, unsigned_abs, Some, option_map};
ghost use Rattle.dec_core.specs.Scale.{scaled_to};
ghost use Rattle.join_words.specs.Limits.{lower_limit, upper_limit};
ghost use Rattle.join_numbers.specs.Limiting.{IsLimit, IsLimits};
ghost use Rattle.join_numbers.specs.UnfitNumbers.{limits_with};

use crate::sizes::{above, below, scaled_number};
use boxed_problem::Limits;
use dec_core::Decimal;
use smps_words::{CoreRow, RowKind};

/// A limit that leaves 128 bits.
#[derive(Clone, Copy, Debug, Drop)]
pub struct Unfit;

// A right-hand side less the magnitude of a range, as a limit.
fn limit_below(rhs: i128, range: Decimal, places: u8) -> Result<Option<i128>, Unfit>
    requires { places ≤ 9 }
    ensures { IsLimit result (Some (rhs -ℤ pos (unsigned_abs (scaled_to range places)))) }
{
    match below(rhs, range, places) {
        Some(limit) => Ok(Some(limit)),
        None => Err(Unfit),
    }
}

// A right-hand side and the magnitude of a range, as a limit.
fn limit_above(rhs: i128, range: Decimal, places: u8) -> Result<Option<i128>, Unfit>
    requires { places ≤ 9 }
    ensures { IsLimit result (Some (rhs +ℤ pos (unsigned_abs (scaled_to range places)))) }
{
    match above(rhs, range, places) {
        Some(limit) => Ok(Some(limit)),
        None => Err(Unfit),
    }
}

// The lower limit of a row with a right-hand side that fits.
fn lower(row: &CoreRow, rhs: i128, places: u8) -> Result<Option<i128>, Unfit>
    requires { places ≤ 9 }
    ensures { IsLimit result
        (lower_limit row.now.kind rhs
        (option_map (λ range. scaled_to range places) row.now.range)) }
{
    match (row.kind, row.range) {
        (RowKind::Less, None) => Ok(None),
        (RowKind::Less, Some(range)) => limit_below(rhs, range, places),
        (RowKind::Equal, Some(range)) => {
            if range.mantissa < 0 {
                limit_below(rhs, range, places)
            } else {
                Ok(Some(rhs))
            }
        }
        _ => Ok(Some(rhs)),
    }
}

// The upper limit of a row with a right-hand side that fits.
fn upper(row: &CoreRow, rhs: i128, places: u8) -> Result<Option<i128>, Unfit>
    requires { places ≤ 9 }
    ensures { IsLimit result
        (upper_limit row.now.kind rhs
        (option_map (λ range. scaled_to range places) row.now.range)) }
{
    match (row.kind, row.range) {
        (RowKind::Greater, None) => Ok(None),
        (RowKind::Greater, Some(range)) => limit_above(rhs, range, places),
        (RowKind::Equal, Some(range)) => {
            if range.mantissa > 0 {
                limit_above(rhs, range, places)
            } else {
                Ok(Some(rhs))
            }
        }
        _ => Ok(Some(rhs)),
    }
}

/// The limits of a row with this right-hand side, scaled.
pub fn limits(row: &CoreRow, rhs: Decimal, places: u8) -> Result<Limits, Unfit>
    requires { places ≤ 9 }
    ensures { IsLimits result (limits_with row.now rhs places) }
{
    let Some(rhs) = scaled_number(rhs, places) else {
        return Err(Unfit);
    };
    let Ok(lower) = lower(row, rhs, places) else {
        return Err(Unfit);
    };
    let Ok(upper) = upper(row, rhs, places) else {
        return Err(Unfit);
    };
    Ok(Limits { lower, upper })
}
