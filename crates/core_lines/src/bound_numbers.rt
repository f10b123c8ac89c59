ghost use Rattle.std.specs.Prelude.{◌≡◌, ◌<◌, ◌≤◌, ◌*◌, ◌^◌, Some, None, Result, Ok, pos, int_lt, unsigned_abs, IfOk, if◌then◌else◌};
ghost use Rattle.smps_words.specs.CoreFacts.{max_end};
ghost use Rattle.core_lines.specs.BoundLines.{is_below, is_beyond, is_endless, is_vast, value_fault, value_read};
ghost use Rattle.core_lines.specs.BoundParts.{HasGoodPlaces};

use crate::bound_values::BoundValue;
use crate::kinds::CoreKind;
use crate::rounding::power_of_ten;
use dec_core::{DecFault, Decimal};

/// The greatest magnitude of a bound.
const MAX_END: u128 = 1_000_000_000;

/// A value of at least this magnitude says that there is no bound.
const NO_BOUND: u128 = 100_000_000_000_000_000_000;

// A power of ten up to the ninth.
fn wide_power(exponent: u8) -> u128
    requires { exponent ≤ 9 }
    ensures { result ≡ 10 ^ exponent }
{
    u128::from(power_of_ten(exponent))
}

// Whether a number says that there is no bound.
fn is_vast(value: Decimal) -> bool
    requires { value.places ≤ 9 }
    ensures { result ≡ is_vast value }
{
    NO_BOUND * wide_power(value.places) <= value.mantissa.unsigned_abs()
}

/// What the text of a bound says.
pub fn value_read(found: Result<Decimal, DecFault>) -> BoundValue
    requires { IfOk found (λ value. value.places ≤ 9) }
    ensures exact { result ≡ value_read found }
    ensures places { HasGoodPlaces result }
{
    match found {
        Ok(value) => {
            if is_vast(value) {
                BoundValue::Endless {
                    negative: value.mantissa < 0,
                }
            } else {
                BoundValue::Finite(value)
            }
        }
        Err(DecFault::TooLarge { negative }) => BoundValue::Endless { negative },
        Err(_) => BoundValue::Finite(Decimal {
            mantissa: 0,
            places: 0,
        }),
    }
}

/// The fault of the text of a bound, which is never that it is too large.
pub fn value_fault(found: Result<Decimal, DecFault>) -> Option<CoreKind>
    ensures { result ≡ value_fault found }
{
    match found {
        Ok(_) => None,
        Err(DecFault::NotNumber) => Some(CoreKind::Number),
        Err(DecFault::TooManyPlaces) => Some(CoreKind::TooManyPlaces),
        Err(DecFault::TooLarge { .. }) => None,
    }
}

/// Whether a value says that there is no bound.
pub fn is_endless(value: BoundValue) -> bool
    ensures { result ≡ is_endless value }
{
    matches!(value, BoundValue::Endless { .. })
}

/// Whether a value is below 0.
pub fn is_below(value: BoundValue) -> bool
    ensures { result ≡ is_below value }
{
    match value {
        BoundValue::Endless { negative } => negative,
        BoundValue::Finite(number) => number.mantissa < 0,
    }
}

/// Whether a value is a number of too great a magnitude.
pub fn is_beyond(value: BoundValue) -> bool
    requires { HasGoodPlaces value }
    ensures { result ≡ is_beyond value }
{
    match value {
        BoundValue::Endless { .. } => false,
        BoundValue::Finite(number) => {
            MAX_END * wide_power(number.places) < number.mantissa.unsigned_abs()
        }
    }
}
