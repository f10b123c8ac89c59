ghost use Rattle.std.specs.Prelude.{◌≡◌, ◌≤◌, ◌&&◌, ◌||◌, true, false, if◌then◌else◌};
ghost use Rattle.core_lines.specs.BoundLines.{has_value, high_change, is_bad, is_below, is_beyond, is_endless, low_change, lower_said, speaks_low, upper_said};
ghost use Rattle.core_lines.specs.BoundParts.{HasGoodPlaces, has_count};

use crate::bound_numbers::{is_below, is_endless};
use crate::bound_values::BoundValue;
use crate::cells::EndChange;
use crate::rounding::{ceiling_of, floor_of};
use crate::words::BoundKind;

/// Whether lines of a kind have a value.
pub fn has_value(kind: BoundKind) -> bool
    ensures { result ≡ has_value kind }
{
    match kind {
        BoundKind::Lower | BoundKind::Upper | BoundKind::Fixed => true,
        BoundKind::Free | BoundKind::NoLower | BoundKind::NoUpper | BoundKind::Binary => false,
    }
}

/// Whether a line of a kind has as many fields as it should.
pub fn has_count(kind: BoundKind, count: usize) -> bool
    ensures { result ≡ has_count kind count }
{
    if has_value(kind) {
        3 <= count && count <= 4
    } else {
        2 <= count && count <= 4
    }
}

/// Whether a bound is bad, given whether an earlier line spoke of the lower end.
pub fn is_bad(kind: BoundKind, value: BoundValue, lowered: bool) -> bool
    ensures { result ≡ is_bad kind value lowered }
{
    match kind {
        BoundKind::Lower => is_endless(value) && !is_below(value),
        BoundKind::Upper => is_below(value) && (is_endless(value) || !lowered),
        BoundKind::Fixed => is_endless(value),
        BoundKind::Free | BoundKind::NoLower | BoundKind::NoUpper | BoundKind::Binary => false,
    }
}

// What a value says of a lower end.
fn low_change(value: BoundValue) -> EndChange
    requires places { HasGoodPlaces value }
    requires small { is_beyond value ≡ false }
    ensures { result ≡ low_change value }
{
    match value {
        BoundValue::Endless { .. } => EndChange::Open,
        BoundValue::Finite(number) => EndChange::At(ceiling_of(number)),
    }
}

// What a value says of an upper end.
fn high_change(value: BoundValue) -> EndChange
    requires places { HasGoodPlaces value }
    requires small { is_beyond value ≡ false }
    ensures { result ≡ high_change value }
{
    match value {
        BoundValue::Endless { .. } => EndChange::Open,
        BoundValue::Finite(number) => EndChange::At(floor_of(number)),
    }
}

/// What a line of a kind says of the lower end.
pub fn lower_said(kind: BoundKind, value: BoundValue) -> EndChange
    requires places { HasGoodPlaces value }
    requires small { has_value kind ≡ true → is_beyond value ≡ false }
    ensures { result ≡ lower_said kind value }
{
    match kind {
        BoundKind::Lower => low_change(value),
        BoundKind::Fixed => low_change(value),
        BoundKind::Free => EndChange::Open,
        BoundKind::NoLower => EndChange::Open,
        BoundKind::Binary => EndChange::At(0),
        BoundKind::Upper => EndChange::Kept,
        BoundKind::NoUpper => EndChange::Kept,
    }
}

/// What a line of a kind says of the upper end.
pub fn upper_said(kind: BoundKind, value: BoundValue) -> EndChange
    requires places { HasGoodPlaces value }
    requires small { has_value kind ≡ true → is_beyond value ≡ false }
    ensures { result ≡ upper_said kind value }
{
    match kind {
        BoundKind::Upper => high_change(value),
        BoundKind::Fixed => high_change(value),
        BoundKind::Free => EndChange::Open,
        BoundKind::NoUpper => EndChange::Open,
        BoundKind::Binary => EndChange::At(1),
        BoundKind::Lower => EndChange::Kept,
        BoundKind::NoLower => EndChange::Kept,
    }
}

/// Whether a line of a kind is one after which an upper bound below 0 may stand.
pub fn speaks_low(kind: BoundKind) -> bool
    ensures { result ≡ speaks_low kind }
{
    match kind {
        BoundKind::Upper | BoundKind::NoUpper => false,
        BoundKind::Lower
        | BoundKind::Fixed
        | BoundKind::Free
        | BoundKind::NoLower
        | BoundKind::Binary => true,
    }
}
