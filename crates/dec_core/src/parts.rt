ghost use Rattle.std.specs.Prelude.{◌≡◌, ◌&&◌, IfSome, position, true};
ghost use Rattle.std.specs.Char.{is_ascii_digit};
ghost use Rattle.std.specs.List.{list_all, before_first, after_first};
ghost use Rattle.std.specs.Option.{option_copied, option_map};
ghost use Rattle.dec_core.specs.Spelling.{is_mark, is_point, has_minus, unsigned_text, exponent_text, is_digit_string, is_exponent, has_digit, ends_well, are_parts, spelling_of};
ghost use Rattle.dec_core.specs.SpellingOfParts.{SpellNumber, spelling_of_parts};

/// The parts of a number's text: its sign, the digits before and behind the
/// point, and what follows the mark of an exponent.
#[derive(Clone, Copy)]
pub struct Parts<'a> {
    pub negative: bool,
    pub whole: &'a [u8],
    pub fraction: &'a [u8],
    pub exponent: Option<&'a [u8]>,
}

/// Whether a text begins with a minus sign.
pub fn has_minus(text: &[u8]) -> bool
    ensures { result ≡ has_minus text.now }
{
    match text {
        [first, ..] => *first == b'-',
        [] => false,
    }
}

/// The text behind the sign, if it begins with one.
pub fn unsigned_text(text: &[u8]) -> &[u8]
    ensures { result.now ≡ unsigned_text text.now }
{
    match text {
        [b'+' | b'-', rest @ ..] => rest,
        _ => text,
    }
}

/// Whether all bytes of a text are digits.
pub fn are_digits(text: &[u8]) -> bool
    ensures { result ≡ list_all is_ascii_digit text.now }
{
    text.iter().all(|byte| byte.is_ascii_digit())
}

fn first_mark(text: &[u8]) -> Option<usize>
    ensures { result ≡ position is_mark text.now }
{
    text.iter().position(|byte| *byte == b'e' || *byte == b'E')
}

fn first_point(text: &[u8]) -> Option<usize>
    ensures { result ≡ position is_point text.now }
{
    text.iter().position(|byte| *byte == b'.')
}

fn cut_exponent(text: &[u8]) -> (&[u8], Option<&[u8]>)
    ensures mantissa { result.0.now ≡ before_first is_mark text.now }
    ensures exponent { option_copied result.1 ≡ exponent_text text.now }
{
    match first_mark(text) {
        None => (text, None),
        Some(mark) => (&text[..mark], Some(&text[mark + 1..])),
    }
}

fn cut_point(text: &[u8]) -> (&[u8], &[u8])
    ensures whole { result.0.now ≡ before_first is_point text.now }
    ensures fraction { result.1.now ≡ after_first is_point text.now }
{
    match first_point(text) {
        None => (text, &text[text.len()..]),
        Some(point) => (&text[..point], &text[point + 1..]),
    }
}

fn is_digit_string(text: &[u8]) -> bool
    ensures { result ≡ is_digit_string text.now }
{
    match text {
        [] => false,
        _ => are_digits(text),
    }
}

fn is_exponent(exponent: Option<&[u8]>) -> bool
    ensures { result ≡ is_exponent (option_copied exponent.entry) }
{
    match exponent {
        None => true,
        Some(text) => is_digit_string(unsigned_text(text)),
    }
}

fn has_digit(whole: &[u8], fraction: &[u8]) -> bool
    ensures { result ≡ has_digit whole.now fraction.now }
{
    !(whole.len() == 0 && fraction.len() == 0)
}

fn are_both_digits(whole: &[u8], fraction: &[u8]) -> bool
    ensures { result ≡ (list_all is_ascii_digit whole.now && list_all is_ascii_digit fraction.now) }
{
    are_digits(whole) && are_digits(fraction)
}

fn ends_well(whole: &[u8], fraction: &[u8], exponent: Option<&[u8]>) -> bool
    ensures { result ≡ ends_well whole.now fraction.now (option_copied exponent.entry) }
{
    is_exponent(exponent) && has_digit(whole, fraction)
}

fn are_parts(whole: &[u8], fraction: &[u8], exponent: Option<&[u8]>) -> bool
    ensures { result ≡ are_parts whole.now fraction.now (option_copied exponent.entry) }
{
    are_both_digits(whole, fraction) && ends_well(whole, fraction, exponent)
}

/// The parts of a text, cut at the sign, the first mark of an exponent and the
/// first point. None comes exactly where the text is no number.
#[tactic(auto, unfolding(crate::specs::Spelling::spelling_of))]
pub fn split(text: &[u8]) -> Option<Parts<'_>>
    ensures spelling { option_map spelling_of_parts result ≡ spelling_of text.now }
    ensures parts { IfSome result SpellNumber }
{
    let (mantissa, exponent) = cut_exponent(unsigned_text(text));
    let (whole, fraction) = cut_point(mantissa);
    if !are_parts(whole, fraction, exponent) {
        return None;
    }
    Some(Parts {
        negative: has_minus(text),
        whole,
        fraction,
        exponent,
    })
}
