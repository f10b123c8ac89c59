use crate::fixed_point::{ENTRY_BITS, VALUE_BITS, bits, narrowed, put_cell, shifted};
use crate::live_rows::Live;
use crate::pieces::Piece;
use crate::variables::{Column, Variable};
use boxed_problem::{Entry, Limits, Side};

/// How many bits the greatest cost has.
const COST_BITS: i32 = 50;

/// The least number that a cost is moved by, so that no two costs tie.
const SPREAD: i128 = 1 << 22;

/// The ends of a variable.
#[derive(Clone, Copy, Debug, Drop)]
struct Ends {
    low: Option<i128>,
    high: Option<i128>,
}

/// The shift by which the greatest cost has its bits.
pub fn cost_shift(pieces: &[Piece]) -> i32 {
    let mut most = 1u32;
    for piece in pieces {
        most = most.max(bits(piece.slope));
    }
    COST_BITS.wrapping_sub_unsigned(most)
}

/// A number below 1024 that a place settles, without a pattern.
fn scattered(place: u32) -> i128 {
    let first = u64::from(place)
        .wrapping_add(1)
        .wrapping_mul(0x9E37_79B9_7F4A_7C15);
    let mixed = first ^ (first >> 31);
    let last = mixed.wrapping_mul(0xBF58_476D_1CE4_E5B9);
    i128::from((last >> 40) & 1023)
}

/// A cost moved away from 0, by an amount of its own for each place.
fn spread(cost: i128, place: u32) -> i128 {
    let by = scattered(place).wrapping_add(1024).wrapping_mul(SPREAD) >> 10;
    if cost >= 0 {
        cost.wrapping_add(by)
    } else {
        cost.wrapping_sub(by)
    }
}

/// Writes the columns of the first basis, in which each row is basic.
pub fn write_columns(columns: &mut [Column], pieces: &[Piece], shift: i32) {
    let mut number = 0u32;
    for (place, piece) in pieces.iter().enumerate() {
        if place < columns.len() {
            columns[place] = Column {
                variable: Variable::free(number),
                cost: spread(shifted(piece.slope, shift), number),
            };
        }
        number = number.wrapping_add(1);
    }
}

/// Writes the rows of the first basis. Their numbers begin at `first`.
pub fn write_rows(rows: &mut [Variable], first: u32) {
    let mut number = first;
    for row in rows.iter_mut() {
        *row = Variable::free(number);
        number = number.wrapping_add(1);
    }
}

/// Fills a table with 0.
fn clear_table(table: &mut [i64]) {
    for entry in table.iter_mut() {
        *entry = 0;
    }
}

/// The slot at a place, and none past the end.
fn slot_at(slots: &[u32], place: u32) -> usize {
    let at = place as usize;
    if at < slots.len() {
        slots[at] as usize
    } else {
        usize::MAX
    }
}

/// Writes an entry into a row that begins at `from`, once for each piece of its
/// column, of which the first is at `first`.
fn write_entry(
    table: &mut [i64],
    from: usize,
    first: usize,
    pieces: &[Piece],
    column: u32,
    entry: i64,
) {
    for place in first..pieces.len() {
        if pieces[place].column != column {
            return;
        }
        put_cell(table, from.wrapping_add(place), entry);
    }
}

/// Writes the table of the first basis.
pub fn write_table(
    table: &mut [i64],
    pieces: &[Piece],
    live: &[Live],
    entries: &[Entry],
    columns: &[u32],
    rows: &[u32],
) {
    clear_table(table);
    let whole = ENTRY_BITS as i32;
    for entry in entries {
        let first = slot_at(columns, entry.column);
        let row = slot_at(rows, entry.row);
        if row < live.len() {
            let number = shifted(entry.value, whole.wrapping_sub(live[row].shift));
            let from = row.wrapping_mul(pieces.len());
            write_entry(
                table,
                from,
                first,
                pieces,
                entry.column,
                narrowed(number, 0).unwrap_or(0),
            );
        }
    }
}

/// How far an end of a column's side goes into a piece.
fn piece_end(piece: Piece, end: i64) -> i128 {
    let size = i128::from(piece.end).wrapping_sub(i128::from(piece.start));
    let far = i128::from(end).wrapping_sub(i128::from(piece.start));
    shifted(far.max(0).min(size), VALUE_BITS)
}

/// The ends of a piece's variable.
fn piece_ends(piece: Piece, side: Side) -> Ends {
    Ends {
        low: Some(piece_end(piece, side.lower)),
        high: Some(piece_end(piece, side.upper)),
    }
}

/// A limit of a row as an end of its variable.
fn limit_end(limit: Option<i128>, live: Live) -> Option<i128> {
    let Some(number) = limit else {
        return None;
    };
    let rest = number.wrapping_sub(live.constant);
    Some(shifted(rest, VALUE_BITS.wrapping_sub(live.shift)))
}

/// The ends of the variable with this number: first come the columns, and then
/// the rows.
fn ends_of(
    number: u32,
    pieces: &[Piece],
    live: &[Live],
    sides: &[Side],
    limits: &[Limits],
) -> Ends {
    let none = Ends {
        low: None,
        high: None,
    };
    let place = number as usize;
    if place < pieces.len() {
        let piece = pieces[place];
        let column = piece.column as usize;
        return if column < sides.len() {
            piece_ends(piece, sides[column])
        } else {
            none
        };
    }
    let slot = place.wrapping_sub(pieces.len());
    if slot >= live.len() {
        return none;
    }
    let own = live[slot];
    let row = own.row as usize;
    if row >= limits.len() {
        return none;
    }
    Ends {
        low: limit_end(limits[row].lower, own),
        high: limit_end(limits[row].upper, own),
    }
}

/// Gives the columns the ends that they have on these sides.
pub fn load_columns(
    columns: &mut [Column],
    pieces: &[Piece],
    live: &[Live],
    sides: &[Side],
    limits: &[Limits],
) {
    for column in columns.iter_mut() {
        let ends = ends_of(column.variable.number, pieces, live, sides, limits);
        column.variable.low = ends.low;
        column.variable.high = ends.high;
    }
}

/// Gives the rows the ends that they have on these sides.
pub fn load_rows(
    rows: &mut [Variable],
    pieces: &[Piece],
    live: &[Live],
    sides: &[Side],
    limits: &[Limits],
) {
    for row in rows.iter_mut() {
        let ends = ends_of(row.number, pieces, live, sides, limits);
        row.low = ends.low;
        row.high = ends.high;
    }
}
