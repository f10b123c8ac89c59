use crate::fixed_point::{VALUE_BITS, cell_at, shifted};
use crate::live_rows::Live;
use crate::pieces::Piece;
use crate::variables::{Column, Variable};
use boxed_problem::Side;

/// A price for a row out of a number with so many bits of fraction.
pub fn put_price(live: &[Live], slot: usize, number: i128, by: i32, out: &mut [i128]) {
    if slot < live.len() {
        let row = live[slot].row as usize;
        if row < out.len() {
            out[row] = shifted(number, by.wrapping_sub(live[slot].shift));
        }
    }
}

/// Sets all prices to 0.
pub fn clear_prices(out: &mut [i128]) {
    for price in out.iter_mut() {
        *price = 0;
    }
}

/// Writes the costs of the columns that stand for rows as those rows' prices.
pub fn write_prices(columns: &[Column], width: usize, live: &[Live], by: i32, out: &mut [i128]) {
    for column in columns {
        let slot = (column.variable.number as usize).wrapping_sub(width);
        put_price(live, slot, column.cost, by, out);
    }
}

/// Writes the entries of a row that begins at `from` as prices.
pub fn write_ray(
    columns: &[Column],
    table: &[i64],
    from: usize,
    is_low: bool,
    live: &[Live],
    by: i32,
    out: &mut [i128],
) {
    for (place, column) in columns.iter().enumerate() {
        let entry = cell_at(table, from.wrapping_add(place));
        let rate = if is_low { entry.wrapping_neg() } else { entry };
        let slot = (column.variable.number as usize).wrapping_sub(columns.len());
        put_price(live, slot, i128::from(rate), by, out);
    }
}

/// Writes the lowest point of each column's side.
pub fn write_lowest(sides: &[Side], pieces: &[Piece], slots: &[u32], out: &mut [i64]) {
    for place in 0..out.len() {
        if place < sides.len() {
            out[place] = sides[place].lower;
        }
        if place < slots.len() {
            let slot = slots[place] as usize;
            if slot < pieces.len() {
                out[place] = pieces[slot].start;
            }
        }
    }
}

/// Adds how far a variable goes to its column, if it is a piece's.
pub fn add_far(variable: &Variable, pieces: &[Piece], out: &mut [i64]) {
    let number = variable.number as usize;
    if number < pieces.len() {
        let column = pieces[number].column as usize;
        let half = 1 << (VALUE_BITS - 1);
        let far = variable.value.saturating_add(half) >> VALUE_BITS;
        if column < out.len() {
            out[column] = out[column].saturating_add(i64::try_from(far).unwrap_or(0));
        }
    }
}
