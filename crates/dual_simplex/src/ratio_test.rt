use crate::fixed_point::{ENTRY_BITS, cell_at};
use crate::variables::{Column, Variable};

/// The least miss of an end that counts.
const MISS_LEAST: i128 = 1 << 6;

/// The greatest entry that is too small for a pivot.
const PIVOT_SMALL: i64 = 1 << 22;

/// A row of the basis whose variable misses an end.
#[derive(Clone, Copy, Debug, Drop)]
pub struct Leaving {
    pub row: usize,
    pub is_low: bool,
    pub miss: i128,
}

/// A column that may enter the basis: its ratio, its entry's magnitude and its
/// place.
#[derive(Clone, Copy, Debug, Drop)]
pub struct Entrant {
    pub ratio: i128,
    pub size: i64,
    pub place: usize,
}

/// What a list of entrants begins with.
pub const NO_ENTRANT: Entrant = Entrant {
    ratio: 0,
    size: 0,
    place: 0,
};

/// The row of the basis that misses an end by most, if any does.
pub fn leaving_row(rows: &[Variable]) -> Option<Leaving> {
    let mut found = None;
    let mut most = MISS_LEAST;
    for (row, variable) in rows.iter().enumerate() {
        let below = variable.below();
        let above = variable.above();
        let is_low = above < below;
        let miss = if is_low { below } else { above };
        if miss > most {
            most = miss;
            found = Some(Leaving { row, is_low, miss });
        }
    }
    found
}

/// Whether a column's allowed move raises a row in which its rate is this.
fn may_rise(column: &Column, rate: i64) -> bool {
    if column.cost > 0 {
        return rate > PIVOT_SMALL;
    }
    if column.cost < 0 {
        return rate < -PIVOT_SMALL;
    }
    if rate > PIVOT_SMALL {
        return column.variable.is_low();
    }
    rate < -PIVOT_SMALL && column.variable.is_high()
}

/// A column as an entrant, if it is one: it isn't fixed, and its allowed move
/// raises the row.
fn as_entrant(column: &Column, place: usize, rate: i64) -> Option<Entrant> {
    if column.variable.width() == Some(0) || !may_rise(column, rate) {
        return None;
    }
    let size = rate.saturating_abs();
    let cost = column.cost.saturating_abs();
    let ratio = cost
        .saturating_mul(1 << ENTRY_BITS)
        .checked_div(i128::from(size))?;
    Some(Entrant { ratio, size, place })
}

/// Writes the entrants for a row that begins at `from`, and tells how many.
pub fn write_entrants(
    columns: &[Column],
    table: &[i64],
    from: usize,
    is_low: bool,
    out: &mut [Entrant],
) -> usize {
    let mut count = 0usize;
    for (place, column) in columns.iter().enumerate() {
        let entry = cell_at(table, from.wrapping_add(place));
        let rate = if is_low { entry } else { entry.wrapping_neg() };
        if let Some(found) = as_entrant(column, place, rate) {
            if count < out.len() {
                out[count] = found;
                count += 1;
            }
        }
    }
    count
}

/// Sorts entrants by their ratios, and equal ones by their entries, the
/// greatest first.
pub fn sort_entrants(found: &mut [Entrant]) {
    found.sort_unstable_by_key(|item| (item.ratio, item.size.wrapping_neg()));
}

/// The ratio at which the row's miss is gone, when the columns of all lower
/// ratios flip to their other ends. None comes where it stays.
fn crossing(columns: &[Column], found: &[Entrant], miss: i128) -> Option<i128> {
    let mut slope = miss;
    for item in found {
        if item.place >= columns.len() {
            return None;
        }
        let Some(width) = columns[item.place].variable.width() else {
            return Some(item.ratio);
        };
        let gain = width.saturating_mul(i128::from(item.size)) >> ENTRY_BITS;
        slope = slope.saturating_sub(gain);
        if slope <= MISS_LEAST {
            return Some(item.ratio);
        }
    }
    None
}

/// The column that enters the basis, if one can: of the sorted entrants the
/// first with the ratio of the crossing.
pub fn entering(columns: &[Column], found: &[Entrant], miss: i128) -> Option<usize> {
    let ratio = crossing(columns, found, miss)?;
    for item in found {
        if item.ratio == ratio {
            return Some(item.place);
        }
    }
    None
}
