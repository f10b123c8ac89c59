use boxed_problem::{Boxed, Entry, Limits, Side};
use std::alloc::{AllocError, Global};
use wide_num::List;

/// The limits of a row.
pub type Row = (Option<i128>, Option<i128>);

/// So many times the side from 0 to an upper end.
pub fn from_zero(alloc: Global, upper: i64, times: usize) -> Result<List<Side>, AllocError> {
    let mut sides = List::new(alloc);
    for _ in 0..times {
        sides.push(Side { lower: 0, upper })?;
    }
    Ok(sides)
}

/// The entries of a matrix that is written row by row.
fn entries_of(
    alloc: Global,
    width: u32,
    height: u32,
    matrix: &[i128],
) -> Result<List<Entry>, AllocError> {
    let mut entries = List::new(alloc);
    for column in 0..width {
        let mut place = column as usize;
        for row in 0..height {
            let value = *matrix.get(place).unwrap_or(&0);
            if value != 0 {
                entries.push(Entry { row, column, value })?;
            }
            place = place.wrapping_add(width as usize);
        }
    }
    Ok(entries)
}

/// The problem of these sides, linear and square parts, limits and matrix.
pub fn problem(
    alloc: Global,
    sides: List<Side>,
    costs: &[i128],
    squares: &[i128],
    rows: &[Row],
    matrix: &[i128],
) -> Result<Option<Boxed>, AllocError> {
    let mut line = List::new(alloc);
    let mut square = List::new(alloc);
    for (place, cost) in costs.iter().enumerate() {
        line.push(*cost)?;
        square.push(squares.get(place).copied().unwrap_or(0))?;
    }
    let mut limits = List::new(alloc);
    for (lower, upper) in rows {
        limits.push(Limits {
            lower: *lower,
            upper: *upper,
        })?;
    }
    let width = u32::try_from(costs.len()).unwrap_or(0);
    let height = u32::try_from(rows.len()).unwrap_or(0);
    let entries = entries_of(alloc, width, height, matrix)?;
    Ok(Boxed::new(sides, limits, entries, 0, line, square))
}
