ghost use Rattle.std.specs.Prelude.{◌≡◌, ◌+◌, ◌*◌, ◌^◌};
ghost use Rattle.word_codec.specs.Spelling.{bits_of, high_of, low_of};

/// No value has these words: the first word that shows it.
#[derive(Clone, Copy, PartialEq, Debug, Drop)]
pub struct NotCanonical {
    pub word: usize,
}

/// How many numbers a word can hold.
const WORDS: u128 = 1 << 64;

/// The high 64 bits of a number.
pub fn high(value: i128) -> u64
    ensures { result ≡ high_of value }
{
    (value.cast_unsigned() / WORDS) as u64
}

/// The low 64 bits of a number.
pub fn low(value: i128) -> u64
    ensures { result ≡ low_of value }
{
    (value.cast_unsigned() % WORDS) as u64
}

/// The number with these high and low bits.
pub fn joined(high: u64, low: u64) -> i128
    ensures { bits_of result ≡ high * 2 ^ 64 + low }
{
    let bits = u128::from(high) * WORDS + u128::from(low);
    bits.cast_signed()
}
