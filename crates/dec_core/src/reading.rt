ghost use Rattle.std.specs.Prelude.{◌≡◌, IfOk, ◌+◌, ◌<◌, ◌≤◌, ◌^◌, ◌++◌, min, true};
ghost use Rattle.std.specs.Char.{is_ascii_digit};
ghost use Rattle.std.specs.List.{list_all};
ghost use Rattle.std.specs.Option.{option_copied};
ghost use Rattle.dec_core.specs.Spelling.{are_parts, is_exponent, raised_by, lowered_by, spelling_of};
ghost use Rattle.dec_core.specs.SpellingOfParts.{SpellNumber, spelling_of_parts};
ghost use Rattle.std.specs.Str.Parse.{digits_value};
ghost use Rattle.dec_core.specs.Stripped.{IsSignificandOf, max_exponent, max_significand};
ghost use Rattle.dec_core.specs.DecimalValue.{IsNormal, ReadsAs, within_limits, decimal_of, decimal_of_spelling};

use crate::decimal::{DecFault, Decimal};
use crate::exponent::capped_number;
use crate::parts::{Parts, has_minus, split, unsigned_text};
use crate::significand::{Significand, scaled_up, with_digits};
use wide_num::signed;

/// The greatest number of decimal places.
const MAX_PLACES: u128 = 9;

/// The greatest magnitude of a mantissa, 10^36.
const MAX_MANTISSA: u128 = 1_000_000_000_000_000_000_000_000_000_000_000_000;

fn within_limits(negative: bool, mantissa: u128, places: u128) -> Result<Decimal, DecFault>
    ensures { result ≡ within_limits negative mantissa places }
{
    if places > MAX_PLACES {
        return Err(DecFault::TooManyPlaces);
    }
    if mantissa > MAX_MANTISSA {
        return Err(DecFault::TooLarge { negative });
    }
    Ok(Decimal {
        mantissa: signed(negative, mantissa),
        places: places as u8,
    })
}

/// The powers of ten by which an exponent multiplies and divides, up to the
/// greatest exponent.
fn powers_of(exponent: Option<&[u8]>) -> (u128, u128)
    requires { is_exponent (option_copied exponent) ≡ true }
    ensures raised { result.0 ≡ min (raised_by (option_copied exponent.entry)) max_exponent }
    ensures lowered { result.1 ≡ min (lowered_by (option_copied exponent.entry)) max_exponent }
{
    let Some(text) = exponent else {
        return (0, 0);
    };
    let power = capped_number(unsigned_text(text));
    if has_minus(text) {
        return (0, power);
    }
    (power, 0)
}

/// The significand of all digits.
fn significand_of(whole: &[u8], fraction: &[u8]) -> Significand
    requires whole { list_all is_ascii_digit whole.now ≡ true }
    requires fraction { list_all is_ascii_digit fraction.now ≡ true }
    ensures stripped { IsSignificandOf (whole.now ++ fraction.now) result }
    ensures value { result.value ≤ max_significand }
    ensures zeros { result.zeros ≤ 2 ^ 65 }
{
    let start = with_digits(Significand { value: 0, zeros: 0 }, whole);
    with_digits(start, fraction)
}

/// The number that the parts spell.
fn decimal_of_parts(parts: &Parts<'_>) -> Result<Decimal, DecFault>
    requires { SpellNumber parts.now }
    ensures { result ≡ decimal_of_spelling (Some (spelling_of_parts parts.now)) }
{
    let significand = significand_of(parts.whole, parts.fraction);
    if significand.value == 0 {
        return Ok(Decimal {
            mantissa: 0,
            places: 0,
        });
    }
    let (up, down) = powers_of(parts.exponent);
    let raised = significand.zeros + up;
    let lowered = parts.fraction.len() as u128 + down;
    let mantissa = scaled_up(significand.value, raised.saturating_sub(lowered));
    within_limits(parts.negative, mantissa, lowered.saturating_sub(raised))
}

/// Reads a decimal: an optional sign, digits with at most one point and at
/// least one digit, and optionally `e` or `E`, an optional sign and at least
/// one digit. Any other text is `NotNumber`. The value is exact and has the
/// fewest places, and zero is (0, 0). `TooManyPlaces` comes exactly where these
/// are more than 9, and `TooLarge` exactly where they aren't and the mantissa's
/// magnitude is above 10^36. It takes no memory.
#[tactic(auto, unfolding(crate::specs::DecimalValue::decimal_of), using(crate::proofs::ReadLaws::reads_as))]
pub fn read(text: &[u8]) -> Result<Decimal, DecFault>
    ensures value { ReadsAs (spelling_of text.now) result }
    ensures same { result ≡ decimal_of text.now }
    ensures normal { IfOk result (λ d. IsNormal d) }
{
    match split(text) {
        None => Err(DecFault::NotNumber),
        Some(parts) => decimal_of_parts(&parts),
    }
}
