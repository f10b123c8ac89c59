ghost use Rattle.std.specs.Prelude.{◌≡◌, ◌≤◌, ◌^◌, ◌*◌, ◌-ℤ◌, ◌+ℤ◌, pos, unsigned_abs};
ghost use Rattle.dec_core.specs.Scale.{scaled_to};
ghost use Rattle.join_numbers.specs.Sizes.{IsFit, IsSize};

use dec_core::{Decimal, scaled};

/// A number times a power of ten: none where it leaves 128 bits.
pub fn scaled_number(number: Decimal, places: u8) -> Option<i128>
    requires { places ≤ 9 }
    ensures { IsFit result (scaled_to number places) }
{
    if places < number.places {
        return Some(number.mantissa);
    }
    match scaled(number, places) {
        Ok(scaled) => Some(scaled),
        Err(_) => None,
    }
}

// A power of ten.
fn power(exponent: u8) -> u128
    requires { exponent ≤ 9 }
    ensures { result ≡ 10 ^ exponent }
{
    10_u128.pow(u32::from(exponent))
}

// The magnitude of a number times a power of ten: none from 2^128 on.
fn size(number: Decimal, places: u8) -> Option<u128>
    requires { places ≤ 9 }
    ensures { IsSize result (unsigned_abs (scaled_to number places)) }
{
    number
        .mantissa
        .unsigned_abs()
        .checked_mul(power(places.saturating_sub(number.places)))
}

/// A number less the magnitude of another one: none where it leaves 128 bits.
pub fn below(number: i128, range: Decimal, places: u8) -> Option<i128>
    requires { places ≤ 9 }
    ensures { IsFit result (number -ℤ pos (unsigned_abs (scaled_to range places))) }
{
    match size(range, places) {
        Some(size) => number.checked_sub_unsigned(size),
        None => None,
    }
}

/// A number and the magnitude of another one: none where it leaves 128 bits.
pub fn above(number: i128, range: Decimal, places: u8) -> Option<i128>
    requires { places ≤ 9 }
    ensures { IsFit result (number +ℤ pos (unsigned_abs (scaled_to range places))) }
{
    match size(range, places) {
        Some(size) => number.checked_add_unsigned(size),
        None => None,
    }
}
