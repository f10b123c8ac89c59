ghost use Rattle.std.specs.Prelude.{◌≡◌, ◌≤◌, ◌||◌, Some, codes};
ghost use Rattle.std.specs.Str.{bytes_eq};
ghost use Rattle.smps_words.specs.NumberFields.{number_in};
ghost use Rattle.smps_words.specs.Tables.{Passes};
ghost use Rattle.smps_words.specs.TextLines.{field, text_of};
ghost use Rattle.stoch_lines.specs.Faults.{number_kind, number_fault, is_probability, probability_fault, period_fault, is_root};
ghost use Rattle.stoch_lines.specs.Sayings.{last_field, begins_block, begins_scenario};
ghost use Rattle.stoch_lines.specs.declared.kinds.StochFault.TheVariants as faults;
ghost use Rattle.stoch_lines.specs.Places.{period_of};

use crate::kinds::{StochFault, StochKind};
use dec_core::{DecFault, Decimal, read};
use smps_words::{FileLine, Periods};
use wide_num::same;

/// A fault of this kind at a line.
pub fn fault_at(line: &FileLine<'_>, kind: StochKind) -> StochFault
    ensures { result ≡ faults.At (text_of line.now).number kind }
{
    StochFault::At {
        line: line.line.number,
        kind,
    }
}

/// Whether a line's first field is the word that begins a realisation.
pub fn begins_block(line: &FileLine<'_>) -> bool
    ensures { result ≡ begins_block (text_of line.now) }
{
    same(line.field(0), b"BL")
}

/// Whether a line's first field is the word that begins a scenario.
pub fn begins_scenario(line: &FileLine<'_>) -> bool
    ensures { result ≡ begins_scenario (text_of line.now) }
{
    same(line.field(0), b"SC")
}

/// The text of the last field.
pub fn last_field<'a>(line: &FileLine<'a>) -> &'a [u8]
    ensures { result.now ≡ last_field (text_of line.now) }
{
    line.field(line.count().saturating_sub(1))
}

fn kind_of(fault: DecFault) -> StochKind
    ensures { result ≡ number_kind fault }
{
    match fault {
        DecFault::NotNumber => StochKind::Number,
        DecFault::TooManyPlaces => StochKind::TooManyPlaces,
        DecFault::TooLarge { .. } => StochKind::TooLarge,
    }
}

/// The number of a field, or its fault.
pub fn number_of_text(text: &[u8]) -> Result<Decimal, StochKind>
    ensures { Passes (number_fault text.now) result
        (λ d. (d ≡ number_in text.now) × (d.places ≤ 9)) }
{
    match read(text) {
        Ok(number) => Ok(number),
        Err(fault) => Err(kind_of(fault)),
    }
}

fn is_probability(number: Decimal) -> bool
    requires { number.places ≤ 9 }
    ensures { result ≡ is_probability number }
{
    let most = 10u64.pow(9 + u32::from(number.places));
    0 < number.mantissa && !(i128::from(most) < number.mantissa)
}

/// The probability of a field, or its fault.
pub fn probability_of(text: &[u8]) -> Result<Decimal, StochKind>
    ensures { Passes (probability_fault text.now) result (λ d. d ≡ number_in text.now) }
{
    let number = number_of_text(text)?;
    if !is_probability(number) {
        return Err(StochKind::Weight);
    }
    Ok(number)
}

/// The number of the period of this name, from 1.
pub fn period_of(periods: &Periods, name: &[u8]) -> Option<u8>
    ensures { result ≡ period_of periods.now name.now }
{
    match periods.names.find(name) {
        Some(at) => Some(at as u8 + 1),
        None => None,
    }
}

/// The number of the period that a field names, or its fault.
pub fn known_period(periods: &Periods, name: &[u8]) -> Result<u8, StochKind>
    ensures { Passes (period_fault periods.now name.now) result
        (λ p. Some p ≡ period_of periods.now name.now) }
{
    match period_of(periods, name) {
        Some(period) => Ok(period),
        None => Err(StochKind::Unknown),
    }
}

fn is_quoted_root(name: &[u8]) -> bool
    ensures { result
        ≡ (bytes_eq name.now (codes "'ROOT'") || bytes_eq name.now (codes "\"ROOT\"")) }
{
    same(name, b"'ROOT'") || same(name, b"\"ROOT\"")
}

/// Whether a name stands for the core where a parent is named.
pub fn is_root(name: &[u8]) -> bool
    ensures { result ≡ is_root name.now }
{
    same(name, b"ROOT") || is_quoted_root(name)
}
