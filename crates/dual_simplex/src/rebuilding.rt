use crate::fixed_point::cell_at;
use crate::pivoting::{Part, exchange};
use crate::variables::{Column, Variable};

/// The least entry that may bring a column back into the basis.
const BACK_LEAST: u64 = 1 << 24;

/// Marks the variables of the basis.
pub fn mark_basis(rows: &[Variable], marks: &mut [bool]) {
    for mark in marks.iter_mut() {
        *mark = false;
    }
    for row in rows {
        let place = row.number as usize;
        if place < marks.len() {
            marks[place] = true;
        }
    }
}

/// Whether a variable was in the basis.
fn is_marked(marks: &[bool], number: u32) -> bool {
    let place = number as usize;
    place < marks.len() && marks[place]
}

/// The row with the greatest entry in a column, among those whose own variable
/// wasn't in the basis.
fn row_to_leave(
    rows: &[Variable],
    table: &[i64],
    width: usize,
    column: usize,
    marks: &[bool],
) -> Option<usize> {
    let mut found = None;
    let mut most = BACK_LEAST;
    let mut place = column;
    for (i, row) in rows.iter().enumerate() {
        let size = cell_at(table, place).unsigned_abs();
        if size > most && row.number as usize >= width && !is_marked(marks, row.number) {
            most = size;
            found = Some(i);
        }
        place = place.wrapping_add(width);
    }
    found
}

/// Brings the marked columns back into the basis, as far as entries allow.
pub fn bring_back(
    columns: &mut [Column],
    rows: &mut [Variable],
    table: &mut [i64],
    marks: &[bool],
    parts: &mut [Part],
) -> Option<()> {
    let width = columns.len();
    for place in 0..width {
        if place < marks.len() && marks[place] {
            if let Some(row) = row_to_leave(rows, table, width, place, marks) {
                exchange(columns, rows, table, row, place, parts)?;
            }
        }
    }
    Some(())
}
