ghost use Rattle.std.specs.Prelude.{◌≡◌};
ghost use Rattle.smps_words.specs.TextLines.{text_of};
ghost use Rattle.stoch_lines.specs.Places.{place_in_column, place_on_right, is_right_name, place_of_first, same_place, stage_of_place, anticipates};
ghost use Rattle.stoch_lines.specs.Sayings.{first_column, place_at};

use crate::places::StochPlace;
use smps_words::{Core, FileLine, Periods};
use wide_num::same;

fn place_in_column(core: &Core, column: u32, row: &[u8]) -> Option<StochPlace>
    ensures { result ≡ place_in_column core.now column row.now }
{
    if same(row, core.objective.as_slice()) {
        return Some(StochPlace::Cost(column));
    }
    match core.row_names.find(row) {
        Some(number) => Some(StochPlace::Cell(number, column)),
        None => None,
    }
}

fn place_on_right(core: &Core, row: &[u8]) -> Option<StochPlace>
    ensures { result ≡ place_on_right core.now row.now }
{
    match core.row_names.find(row) {
        Some(number) => Some(StochPlace::Right(number)),
        None => None,
    }
}

fn is_right_name(core: &Core, first: &[u8]) -> bool
    ensures { result ≡ is_right_name core.now first.now }
{
    same(first, b"RHS") || same(first, core.right_name.as_slice())
}

fn place_of_first(core: &Core, column: Option<u32>, first: &[u8], row: &[u8]) -> Option<StochPlace>
    ensures { result ≡ place_of_first core.now column first.now row.now }
{
    match column {
        Some(column) => place_in_column(core, column, row),
        None if is_right_name(core, first) => place_on_right(core, row),
        None => None,
    }
}

/// The column that a line's first field names, if it names one.
pub fn first_column(core: &Core, line: &FileLine<'_>) -> Option<u32>
    ensures { result ≡ first_column core.now (text_of line.now) }
{
    core.column_names.find(line.field(0))
}

/// The place that a line's first field and its field `k` name, given the first
/// field's column.
pub fn place_at(
    core: &Core,
    column: Option<u32>,
    k: usize,
    line: &FileLine<'_>,
) -> Option<StochPlace>
    requires { column ≡ first_column core.now (text_of line.now) }
    ensures { result ≡ place_at core.now k (text_of line.now) }
{
    place_of_first(core, column, line.field(0), line.field(k))
}

/// Whether two places are the same.
pub fn same_place(place: StochPlace, other: StochPlace) -> bool
    ensures { result ≡ same_place place other }
{
    match (place, other) {
        (StochPlace::Cost(a), StochPlace::Cost(b)) => a == b,
        (StochPlace::Cell(a, c), StochPlace::Cell(b, d)) => a == b && c == d,
        (StochPlace::Right(a), StochPlace::Right(b)) => a == b,
        _ => false,
    }
}

/// The stage of a place: its row's, or for a cost the column's.
pub fn stage_of_place(periods: &Periods, place: StochPlace) -> u8
    ensures { result ≡ stage_of_place periods.now place }
{
    match place {
        StochPlace::Cost(column) => periods.stage_of_column(column),
        StochPlace::Cell(row, _) => periods.stage_of_row(row),
        StochPlace::Right(row) => periods.stage_of_row(row),
    }
}

/// Whether a place is that of a column in a row of an earlier stage.
pub fn anticipates(periods: &Periods, place: StochPlace) -> bool
    ensures { result ≡ anticipates periods.now place }
{
    match place {
        StochPlace::Cell(row, column) => {
            periods.stage_of_row(row) < periods.stage_of_column(column)
        }
        _ => false,
    }
}
