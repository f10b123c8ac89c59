ghost use Rattle.std.specs.Prelude.{◌≡◌, ◌≤◌, length, true, IfSome};
ghost use Rattle.std.specs.List.{list_all};
ghost use Rattle.std.specs.Str.Parse.{digits_value};
ghost use Rattle.run_words.specs.Numerals.{is_digit, max_digits, number_in, numeral_of, within};

/// The greatest number of digits of a number in the words.
pub const MAX_DIGITS: usize = 19;

/// Whether all bytes are digits.
fn are_digits(text: &[u8]) -> bool
    ensures { result ≡ list_all is_digit text.now }
{
    text.iter().all(|b| *b >= b'0' && *b <= b'9')
}

/// The number that digits write.
fn digits(text: &[u8]) -> u64
    requires digits { list_all is_digit text.now ≡ true }
    requires short { length text.now ≤ max_digits }
    ensures { result ≡ digits_value 10 text.now }
{
    let mut value = 0u64;
    for b in text {
        value = value * 10 + u64::from(*b - b'0');
    }
    value
}

/// The number that one to nineteen digits write, leading zeros allowed. None
/// comes exactly where the text is anything else.
fn numeral(text: &[u8]) -> Option<u64>
    ensures { result ≡ numeral_of text.now }
{
    if text.is_empty() || text.len() > MAX_DIGITS {
        return None;
    }
    if !are_digits(text) {
        return None;
    }
    Some(digits(text))
}

// A number from the least to the greatest.
fn within(least: u64, greatest: u64, n: u64) -> Option<u64>
    ensures value { result ≡ within least greatest n }
    ensures range { IfSome result (λ k. (least ≤ k) × (k ≤ greatest)) }
{
    if least <= n && n <= greatest {
        Some(n)
    } else {
        None
    }
}

/// The number from the least to the greatest that a word writes.
pub fn number_in(least: u64, greatest: u64, word: &[u8]) -> Option<u64>
    ensures value { result ≡ number_in least greatest word.now }
    ensures range { IfSome result (λ k. (least ≤ k) × (k ≤ greatest)) }
{
    within(least, greatest, numeral(word)?)
}
