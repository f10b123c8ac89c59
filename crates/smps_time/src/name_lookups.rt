ghost use Rattle.std.specs.Prelude.{◌≡◌, ◌<◌, ◌≤◌, length, IfSome};
ghost use Rattle.std.specs.List.{list_any};
ghost use Rattle.std.specs.Str.{bytes_eq};
ghost use Rattle.line_core.specs.Fields.{span_text};
ghost use Rattle.line_core.specs.Names.{number_of};
ghost use Rattle.smps_words.specs.CoreFacts.{max_columns, max_rows};
ghost use Rattle.smps_words.specs.TextLines.{text_of};
ghost use Rattle.smps_time.specs.TimeAnswers.{names_of};
ghost use Rattle.smps_time.specs.TimeFile.{column_named, place_named, says_explicit};

use line_core::{Names, Span};
use smps_words::{Core, FileLine};
use wide_num::same;

fn is_among(bytes: &[u8], spans: &[Span], word: &[u8]) -> bool
    ensures { result ≡ list_any (λ span. bytes_eq (span_text bytes.now span) word.now) spans.now }
{
    spans.iter().any(|span| same(span.text(bytes), word))
}

/// Whether a field of a line is the word `EXPLICIT`.
pub fn says_explicit(line: &FileLine) -> bool
    ensures { result ≡ says_explicit (text_of line.now) }
{
    is_among(line.bytes, line.line.fields.as_slice(), b"EXPLICIT")
}

fn number_of(names: &Names, name: &[u8]) -> Option<u32>
    ensures value { result ≡ number_of name.now names.now }
    ensures within { IfSome result (λ number. number < length names.now) }
{
    names.find(name)
}

/// The number of the column that a line names, from 0.
pub fn column_named(core: &Core, line: &FileLine) -> Option<u32>
    ensures value { result ≡ column_named (names_of core.now) (text_of line.now) }
    ensures small { IfSome result (λ column. column < max_columns) }
{
    number_of(&core.column_names, line.field(0))
}

/// The place of the row that a line names: 0 for the objective, and from 1 for
/// the constraint rows.
pub fn place_named(core: &Core, line: &FileLine) -> Option<u32>
    ensures value { result ≡ place_named (names_of core.now) (text_of line.now) }
    ensures small { IfSome result (λ place. place ≤ max_rows) }
{
    let name = line.field(1);
    if same(name, core.objective.as_slice()) {
        return Some(0);
    }
    match number_of(&core.row_names, name) {
        Some(row) => Some(row + 1),
        None => None,
    }
}
