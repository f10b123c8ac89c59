ghost use Rattle.std.specs.Prelude.{◌≡◌, ◌<◌, ◌≤◌, ◌*◌, ◌^◌, pos, neg_ℤ, unsigned_abs};
ghost use Rattle.std.specs.Int.{int_div_euclid};
ghost use Rattle.smps_words.specs.CoreFacts.{max_end};
ghost use Rattle.core_lines.specs.BoundLines.{ceiling_of, floor_of};

use dec_core::Decimal;

/// A power of ten up to the ninth.
pub fn power_of_ten(exponent: u8) -> u64
    requires { exponent ≤ 9 }
    ensures value { result ≡ 10 ^ exponent }
    ensures some { 0 < result }
{
    10u64.pow(u32::from(exponent))
}

// A quotient of magnitude at most 10^9, rounded down.
fn quotient(value: i128, power: u64) -> i64
    requires some { 0 < power }
    requires small { unsigned_abs value ≤ max_end * power }
    ensures { result ≡ int_div_euclid value (pos power) }
{
    value.div_euclid(i128::from(power)) as i64
}

/// A number of magnitude at most 10^9, rounded down.
pub fn floor_of(value: Decimal) -> i64
    requires places { value.places ≤ 9 }
    requires small { unsigned_abs value.mantissa ≤ max_end * 10 ^ value.places }
    ensures { result ≡ floor_of value }
{
    quotient(value.mantissa, power_of_ten(value.places))
}

/// A number of magnitude at most 10^9, rounded up.
pub fn ceiling_of(value: Decimal) -> i64
    requires places { value.places ≤ 9 }
    requires small { unsigned_abs value.mantissa ≤ max_end * 10 ^ value.places }
    ensures { result ≡ ceiling_of value }
{
    -quotient(-value.mantissa, power_of_ten(value.places))
}
