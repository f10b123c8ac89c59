ghost use Rattle.std.specs.Prelude.{◌≡◌, ℕ, List, ◌++◌, ◌+◌, ◌*◌, ◌^◌, ◌<◌, ◌≤◌, length, min, true};
ghost use Rattle.std.specs.Char.{is_ascii_digit};
ghost use Rattle.std.specs.List.{list_all};
ghost use Rattle.std.specs.Str.Parse.{digits_value};
ghost use Rattle.dec_core.specs.Stripped.{IsStripped, max_significand};

use std::cmp;

/// A number of at least 10^37 counts as 10^37.
const MAX_SIGNIFICAND: u128 = 10_000_000_000_000_000_000_000_000_000_000_000_000;

/// A number without the zeros at its end, and how many they are.
#[derive(Clone, Copy)]
pub struct Significand {
    pub value: u128,
    pub zeros: u128,
}

/// The product with a power of ten, up to the greatest significand.
pub fn scaled_up(value: u128, power: u128) -> u128
    requires { value ≤ max_significand }
    ensures { result ≡ min (value * 10 ^ power) max_significand }
{
    let mut product = value;
    let mut left = power;
    while left > 0 && product > 0 && product < MAX_SIGNIFICAND {
        product = cmp::min(product * 10, MAX_SIGNIFICAND);
        left -= 1;
    }
    product
}

/// The significand with one more digit behind it.
fn with_digit(significand: Significand, digit: u8) -> Significand
    requires value { significand.value ≤ max_significand }
    requires zeros { significand.zeros < 2 ^ 100 }
    requires digit { digit < 10 }
    ensures stripped { (n : ℕ) → IsStripped n significand.value significand.zeros
        → IsStripped (n * 10 + digit) result.value result.zeros }
    ensures value { result.value ≤ max_significand }
    ensures zeros { result.zeros ≤ significand.zeros + 1 }
{
    let zeros = significand.zeros + 1;
    if digit == 0 {
        return Significand {
            value: significand.value,
            zeros,
        };
    }
    let shifted = scaled_up(significand.value, zeros);
    Significand {
        value: cmp::min(shifted + u128::from(digit), MAX_SIGNIFICAND),
        zeros: 0,
    }
}

/// The significand with more digits behind it.
pub fn with_digits(start: Significand, digits: &[u8]) -> Significand
    requires value { start.value ≤ max_significand }
    requires zeros { start.zeros ≤ 2 ^ 64 }
    requires digits { list_all is_ascii_digit digits.now ≡ true }
    ensures stripped { (front : List ℕ) → IsStripped (digits_value 10 front) start.value start.zeros
        → IsStripped (digits_value 10 (front ++ digits.now)) result.value result.zeros }
    ensures value { result.value ≤ max_significand }
    ensures zeros { result.zeros ≤ start.zeros + length digits.now }
{
    let mut significand = start;
    for byte in digits {
        significand = with_digit(significand, *byte - b'0');
    }
    significand
}
