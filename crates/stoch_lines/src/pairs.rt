ghost use Rattle.std.specs.Prelude.{◌≡◌, ◌≤◌, ◌∷◌, [], nat_lt};
ghost use Rattle.std.specs.List.{list_any};
ghost use Rattle.smps_words.specs.Tables.{Passes};
ghost use Rattle.smps_words.specs.TextLines.{text_of};
ghost use Rattle.stoch_lines.specs.Faults.{pair_fault, pairs_fault, places_rules, is_repeated};
ghost use Rattle.stoch_lines.specs.Places.{anticipates, stage_of_place};
ghost use Rattle.stoch_lines.specs.Sayings.{entry_at, entries_at, first_column};
ghost use Rattle.stoch_lines.specs.Turns.{pair_entries, pair_places};

use crate::entries::Entries;
use crate::fields::number_of_text;
use crate::kinds::StochKind;
use crate::place_words::{anticipates, first_column, place_at, same_place, stage_of_place};
use crate::places::{StochEntry, StochPlace};
use smps_words::{Core, FileLine, Periods};

/// The entries of a line with one or two pairs of row and value.
#[derive(Clone, Copy, Debug, Drop)]
pub struct Pairs {
    pub first: StochEntry,
    pub second: Option<StochEntry>,
}

/// The entry of the row in a line's field `k` and the value behind it, given the
/// column of the first field.
pub fn pair_of(
    core: &Core,
    column: Option<u32>,
    k: usize,
    line: &FileLine<'_>,
) -> Result<StochEntry, StochKind>
    requires column { column ≡ first_column core.now (text_of line.now) }
    requires small { k ≤ 3 }
    ensures { Passes (pair_fault core.now k (text_of line.now)) result
        (λ e. e ≡ entry_at core.now k (text_of line.now)) }
{
    let Some(place) = place_at(core, column, k, line) else {
        return Err(StochKind::Unknown);
    };
    let value = number_of_text(line.field(k + 1))?;
    Ok(StochEntry {
        place,
        value,
        line: line.line.number,
    })
}

/// The entries of a line with one or two pairs.
pub fn pairs_of(core: &Core, line: &FileLine<'_>) -> Result<Pairs, StochKind>
    ensures { Passes (pairs_fault core.now (text_of line.now)) result
        (λ p. pair_entries p ≡ entries_at core.now (text_of line.now)) }
{
    let count = line.count();
    if count != 3 && count != 5 {
        return Err(StochKind::Fields);
    }
    let column = first_column(core, line);
    let first = pair_of(core, column, 1, line)?;
    let second = if count == 5 {
        Some(pair_of(core, column, 3, line)?)
    } else {
        None
    };
    Ok(Pairs { first, second })
}

fn one_anticipates(periods: &Periods, pairs: &Pairs) -> bool
    ensures { result ≡ list_any (anticipates periods.now) (pair_places pairs.now) }
{
    match pairs.second {
        Some(second) => {
            anticipates(periods, pairs.first.place) || anticipates(periods, second.place)
        }
        None => anticipates(periods, pairs.first.place),
    }
}

fn one_is_early(periods: &Periods, earliest: u8, pairs: &Pairs) -> bool
    ensures { result
        ≡ list_any (λ place. nat_lt (stage_of_place periods.now place) earliest)
        (pair_places pairs.now) }
{
    match pairs.second {
        Some(second) => {
            stage_of_place(periods, pairs.first.place) < earliest
                || stage_of_place(periods, second.place) < earliest
        }
        None => stage_of_place(periods, pairs.first.place) < earliest,
    }
}

/// Whether the places of a line may change from a period on. `twice` tells
/// whether one of them was given before.
pub fn places_rules(
    periods: &Periods,
    earliest: u8,
    twice: bool,
    pairs: &Pairs,
) -> Result<(), StochKind>
    ensures { Passes (places_rules periods.now earliest twice (pair_places pairs.now)) result
        (λ _. Unit {0}) }
{
    if one_anticipates(periods, pairs) {
        return Err(StochKind::Anticipates);
    }
    if one_is_early(periods, earliest, pairs) {
        return Err(StochKind::EarlyEntry);
    }
    if twice {
        return Err(StochKind::Twice);
    }
    Ok(())
}

fn pair_repeats(entries: &Entries, choice: usize, first: StochPlace, second: StochPlace) -> bool
    ensures { result ≡ is_repeated entries.now choice (first ∷ second ∷ []) }
{
    entries.is_given(choice, first) || same_place(first, second) || entries.is_given(choice, second)
}

/// Whether a place of a line was given before in the last realisation or
/// scenario, or stands twice in the line.
pub fn is_repeated(entries: &Entries, choice: usize, pairs: &Pairs) -> bool
    ensures { result ≡ is_repeated entries.now choice (pair_places pairs.now) }
{
    match pairs.second {
        Some(second) => pair_repeats(entries, choice, pairs.first.place, second.place),
        None => entries.is_given(choice, pairs.first.place),
    }
}
