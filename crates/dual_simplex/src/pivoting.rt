use crate::fixed_point::{ENTRY_BITS, cell_at, narrowed, put_cell};
use crate::flipping::move_rows;
use crate::ratio_test::Leaving;
use crate::variables::{Column, Variable};

/// Entries below this are taken for 0 in the pivot's row.
const PIVOT_LEAST: i128 = 1 << 6;

/// Entries below this are taken for 0 in the other rows.
const OTHER_LEAST: i128 = 1 << 4;

/// An entry of the pivot's row that isn't 0, with its place.
#[derive(Clone, Copy, Debug, Drop)]
pub struct Part {
    pub place: usize,
    pub entry: i64,
}

/// What a list of parts begins with.
pub const NO_PART: Part = Part { place: 0, entry: 0 };

/// A cost over an entry.
fn over(cost: i128, entry: i64) -> Option<i128> {
    cost.checked_mul(1 << ENTRY_BITS)?
        .checked_div(i128::from(entry))
}

/// One over an entry.
fn inverse(entry: i64) -> Option<i64> {
    let one: i128 = 1 << 72;
    narrowed(one.checked_div(i128::from(entry))?, 0)
}

/// A cost less an entry times the entering column's ratio.
fn less_times(cost: i128, entry: i64, ratio: i128) -> Option<i128> {
    let product = ratio.checked_mul(i128::from(entry))?;
    cost.checked_sub(product >> ENTRY_BITS)
}

/// Turns the pivot's row and the costs, writes the row's parts besides the
/// pivot, and tells how many. None comes where a number grows too great.
fn turn_row(
    columns: &mut [Column],
    table: &mut [i64],
    from: usize,
    pivot: usize,
    turned: i64,
    ratio: i128,
    parts: &mut [Part],
) -> Option<usize> {
    let mut count = 0usize;
    for place in 0..columns.len() {
        let old = cell_at(table, from.wrapping_add(place));
        if place != pivot && old != 0 {
            let product = i128::from(old).wrapping_mul(i128::from(turned)) >> ENTRY_BITS;
            let entry = narrowed(product.wrapping_neg(), PIVOT_LEAST)?;
            columns[place].cost = less_times(columns[place].cost, old, ratio)?;
            put_cell(table, from.wrapping_add(place), entry);
            if entry != 0 && count < parts.len() {
                parts[count] = Part { place, entry };
                count += 1;
            }
        }
    }
    Some(count)
}

/// Puts the turned pivot's row into another row. None comes where a number
/// grows too great.
fn clear_row(row: &mut [i64], pivot: usize, turned: i64, parts: &[Part]) -> Option<()> {
    let factor = cell_at(row, pivot);
    if factor == 0 {
        return Some(());
    }
    let wide = i128::from(factor);
    for part in parts {
        if part.place < row.len() {
            let more = wide.wrapping_mul(i128::from(part.entry)) >> ENTRY_BITS;
            let sum = i128::from(row[part.place]).wrapping_add(more);
            row[part.place] = narrowed(sum, OTHER_LEAST)?;
        }
    }
    let last = wide.wrapping_mul(i128::from(turned)) >> ENTRY_BITS;
    put_cell(row, pivot, narrowed(last, 0)?);
    Some(())
}

/// Puts the turned pivot's row into all other rows.
fn clear_rows(
    table: &mut [i64],
    width: usize,
    rows: usize,
    leaving: usize,
    pivot: usize,
    turned: i64,
    parts: &[Part],
) -> Option<()> {
    let mut from = 0usize;
    for row in 0..rows {
        let to = from.wrapping_add(width);
        if row != leaving {
            let slice = table.get_mut(from..to)?;
            clear_row(slice, pivot, turned, parts)?;
        }
        from = to;
    }
    Some(())
}

/// Turns the table at a row and a column. None comes where a number grows too
/// great, and the table is then of no use.
fn turn(
    columns: &mut [Column],
    table: &mut [i64],
    rows: usize,
    leaving: usize,
    pivot: usize,
    parts: &mut [Part],
) -> Option<()> {
    let width = columns.len();
    let from = leaving.wrapping_mul(width);
    let entry = cell_at(table, from.wrapping_add(pivot));
    let turned = inverse(entry)?;
    let cost = columns.get(pivot)?.cost;
    let ratio = over(cost, entry)?;
    let count = turn_row(columns, table, from, pivot, turned, ratio, parts)?;
    put_cell(table, from.wrapping_add(pivot), turned);
    if pivot < columns.len() {
        columns[pivot].cost = ratio;
    }
    clear_rows(
        table,
        width,
        rows,
        leaving,
        pivot,
        turned,
        parts.get(..count)?,
    )
}

/// Changes the places of a row's variable and a column's.
pub fn exchange(
    columns: &mut [Column],
    rows: &mut [Variable],
    table: &mut [i64],
    leaving: usize,
    pivot: usize,
    parts: &mut [Part],
) -> Option<()> {
    turn(columns, table, rows.len(), leaving, pivot, parts)?;
    if leaving < rows.len() && pivot < columns.len() {
        let variable = rows[leaving];
        rows[leaving] = columns[pivot].variable;
        columns[pivot].variable = variable;
    }
    Some(())
}

/// Moves the leaving variable to the end that it misses, by a move of the
/// entering column, and changes their places.
pub fn pivot_at(
    columns: &mut [Column],
    rows: &mut [Variable],
    table: &mut [i64],
    leaving: Leaving,
    pivot: usize,
    parts: &mut [Part],
) -> Option<()> {
    let width = columns.len();
    let place = leaving.row.wrapping_mul(width).wrapping_add(pivot);
    let row = *rows.get(leaving.row)?;
    let column = *columns.get(pivot)?;
    let target = if leaving.is_low { row.low? } else { row.high? };
    let by = over(target.checked_sub(row.value)?, cell_at(table, place))?;
    move_rows(rows, table, width, pivot, by);
    if leaving.row < rows.len() && pivot < columns.len() {
        rows[leaving.row].value = target;
        columns[pivot].variable.value = column.variable.value.wrapping_add(by);
    }
    exchange(columns, rows, table, leaving.row, pivot, parts)
}
