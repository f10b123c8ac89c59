ghost use Rattle.std.specs.Prelude.{◌≡◌, ◌≤◌, min, true, IfSome};
ghost use Rattle.std.specs.Char.{is_ascii_digit};
ghost use Rattle.std.specs.List.{list_all};
ghost use Rattle.std.specs.Option.{option_map};
ghost use Rattle.std.specs.Str.Parse.{digits_value};
ghost use Rattle.schedule_lines.specs.TurnWords.{begins_well, is_numeral, numeral_of};
ghost use Rattle.schedule_lines.specs.ReadingSteps.{number_cap};

use dec_core::are_digits;
use std::cmp;

/// Every number from 2^64 on counts as 2^64, which is more than any `usize`.
const NUMBER_CAP: u128 = 18_446_744_073_709_551_616;

fn capped_number(digits: &[u8]) -> u128
    requires { list_all is_ascii_digit digits.now ≡ true }
    ensures { result ≡ min (digits_value 10 digits.now) number_cap }
{
    let mut number = 0;
    for byte in digits {
        number = cmp::min(number * 10 + u128::from(*byte - b'0'), NUMBER_CAP);
    }
    number
}

fn begins_well(text: &[u8]) -> bool
    ensures { result ≡ begins_well text.now }
{
    match text {
        [] => false,
        [_] => true,
        [first, ..] => *first != b'0',
    }
}

fn is_numeral(text: &[u8]) -> bool
    ensures { result ≡ is_numeral text.now }
{
    begins_well(text) && are_digits(text)
}

/// The number of a numeral, up to 2^64. None comes exactly where the text is no
/// numeral.
pub fn numeral(text: &[u8]) -> Option<u128>
    ensures value { result ≡ option_map (λ number. min number number_cap) (numeral_of text.now) }
{
    if !is_numeral(text) {
        return None;
    }
    Some(capped_number(text))
}
