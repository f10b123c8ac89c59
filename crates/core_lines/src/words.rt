ghost use Rattle.std.specs.Prelude.{◌≡◌};
ghost use Rattle.core_lines.specs.Words.{section_named, row_kind_named, bound_kind_named, kind_of_number};

use crate::kinds::CoreKind;
use dec_core::DecFault;
use smps_words::RowKind;
use wide_num::same;

/// The sections of a core file, each begun by its header; `Start` before the
/// first header, and `Other` for a word that is no header.
#[derive(Clone, Copy, Debug, Drop, PartialEq, Eq)]
pub enum Section {
    Start,
    Name,
    Sense,
    Rows,
    Columns,
    Rights,
    Ranges,
    Bounds,
    End,
    Other,
}

/// The kinds of bounds. `LI` is the same as `LO`, and `UI` the same as `UP`.
#[derive(Clone, Copy, Debug, Drop, PartialEq, Eq)]
pub enum BoundKind {
    Lower,
    Upper,
    Fixed,
    Free,
    NoLower,
    NoUpper,
    Binary,
}

/// The section that a header's word begins.
pub fn section_named(word: &[u8]) -> Section
    ensures { result ≡ section_named word.now }
{
    if same(word, b"NAME") {
        return Section::Name;
    }
    if same(word, b"OBJSENSE") {
        return Section::Sense;
    }
    if same(word, b"ROWS") {
        return Section::Rows;
    }
    if same(word, b"COLUMNS") {
        return Section::Columns;
    }
    if same(word, b"RHS") {
        return Section::Rights;
    }
    if same(word, b"RANGES") {
        return Section::Ranges;
    }
    if same(word, b"BOUNDS") {
        return Section::Bounds;
    }
    if same(word, b"ENDATA") {
        return Section::End;
    }
    Section::Other
}

/// The kind of a row by its word: `Some(None)` for `N`.
pub fn row_kind_named(word: &[u8]) -> Option<Option<RowKind>>
    ensures { result ≡ row_kind_named word.now }
{
    if same(word, b"N") {
        return Some(None);
    }
    if same(word, b"L") {
        return Some(Some(RowKind::Less));
    }
    if same(word, b"G") {
        return Some(Some(RowKind::Greater));
    }
    if same(word, b"E") {
        return Some(Some(RowKind::Equal));
    }
    None
}

/// The kind of a bound by its word.
pub fn bound_kind_named(word: &[u8]) -> Option<BoundKind>
    ensures { result ≡ bound_kind_named word.now }
{
    if same(word, b"LO") {
        return Some(BoundKind::Lower);
    }
    if same(word, b"LI") {
        return Some(BoundKind::Lower);
    }
    if same(word, b"UP") {
        return Some(BoundKind::Upper);
    }
    if same(word, b"UI") {
        return Some(BoundKind::Upper);
    }
    if same(word, b"FX") {
        return Some(BoundKind::Fixed);
    }
    if same(word, b"FR") {
        return Some(BoundKind::Free);
    }
    if same(word, b"MI") {
        return Some(BoundKind::NoLower);
    }
    if same(word, b"PL") {
        return Some(BoundKind::NoUpper);
    }
    if same(word, b"BV") {
        return Some(BoundKind::Binary);
    }
    None
}

/// The kind of a number's fault.
pub fn kind_of_number(fault: DecFault) -> CoreKind
    ensures { result ≡ kind_of_number fault }
{
    match fault {
        DecFault::NotNumber => CoreKind::Number,
        DecFault::TooManyPlaces => CoreKind::TooManyPlaces,
        DecFault::TooLarge { .. } => CoreKind::TooLarge,
    }
}
