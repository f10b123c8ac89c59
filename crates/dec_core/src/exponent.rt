ghost use Rattle.std.specs.Prelude.{◌≡◌, min, true};
ghost use Rattle.std.specs.Char.{is_ascii_digit};
ghost use Rattle.std.specs.List.{list_all};
ghost use Rattle.std.specs.Str.Parse.{digits_value};
ghost use Rattle.dec_core.specs.Stripped.{max_exponent};

use std::cmp;

/// An exponent of at least 2^100 counts as 2^100.
const MAX_EXPONENT: u128 = 1_267_650_600_228_229_401_496_703_205_376;

/// The number of a row of digits, up to the greatest exponent.
pub fn capped_number(digits: &[u8]) -> u128
    requires { list_all is_ascii_digit digits.now ≡ true }
    ensures { result ≡ min (digits_value 10 digits.now) max_exponent }
{
    let mut number = 0;
    for byte in digits {
        number = cmp::min(number * 10 + u128::from(*byte - b'0'), MAX_EXPONENT);
    }
    number
}
