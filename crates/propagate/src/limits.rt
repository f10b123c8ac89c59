ghost use Rattle.std.specs.Prelude.{◌<◌, length};
ghost use Rattle.boxed_problem.specs.BoxedFacts.{entry_at};
ghost use Rattle.propagate.specs.Tightening.{IsCut, IsReady};

use crate::clipping::{cut_above, cut_below};
use crate::range::Range;
use boxed_problem::{Entry, Limits, Side};

/// The side of an entry's column that its row's upper limit leaves, where the
/// row's range lies in this one.
pub fn below_limit(
    rows: &[Limits],
    entries: &[Entry],
    sides: &[Side],
    range: Range,
    place: usize,
) -> Side
    requires place { place < length entries.now }
    requires ready { IsReady rows.now entries.now sides.now place range }
    ensures { IsCut rows.now entries.now sides.now (entry_at entries.now place).column result }
{
    let entry = entries[place];
    let side = sides[entry.column as usize];
    let Some(upper) = rows[entry.row as usize].upper else {
        return side;
    };
    if side.upper <= side.lower {
        return side;
    }
    cut_above(side, entry.value, upper - range.low)
}

/// The side of an entry's column that its row's lower limit leaves, where the
/// row's range lies in this one.
pub fn above_limit(
    rows: &[Limits],
    entries: &[Entry],
    sides: &[Side],
    range: Range,
    place: usize,
) -> Side
    requires place { place < length entries.now }
    requires ready { IsReady rows.now entries.now sides.now place range }
    ensures { IsCut rows.now entries.now sides.now (entry_at entries.now place).column result }
{
    let entry = entries[place];
    let side = sides[entry.column as usize];
    let Some(lower) = rows[entry.row as usize].lower else {
        return side;
    };
    if side.upper <= side.lower {
        return side;
    }
    cut_below(side, entry.value, range.high - lower)
}
