use crate::fixed_point::bits;
use crate::pieces::NO_SLOT;
use boxed_problem::{Boxed, Entry, Limits, Side};
use std::alloc::{AllocError, Global};

/// A row of the problem that can bind: its number, the bits that its entries
/// are shifted by, and its activity at the lower ends of all sides.
#[derive(Clone, Copy, Debug, Drop)]
pub struct Live {
    pub row: u32,
    pub shift: i32,
    pub constant: i128,
}

/// A row's activity over the sides, that at their lower ends, and the bits of
/// its greatest entry in a column that isn't single.
#[derive(Clone, Copy, Debug, Drop)]
struct Span {
    least: i128,
    most: i128,
    constant: i128,
    bits: u32,
}

/// A row's span with one entry more.
fn widened(span: Span, value: i128, side: Side) -> Span {
    let first = value.wrapping_mul(i128::from(side.lower));
    let last = value.wrapping_mul(i128::from(side.upper));
    let own = if side.lower == side.upper {
        0
    } else {
        bits(value)
    };
    Span {
        least: span.least.wrapping_add(first.min(last)),
        most: span.most.wrapping_add(first.max(last)),
        constant: span.constant.wrapping_add(first),
        bits: span.bits.max(own),
    }
}

/// The spans of all rows.
fn spans(
    alloc: Global,
    rows: usize,
    entries: &[Entry],
    sides: &[Side],
) -> Result<Vec<Span>, AllocError> {
    let none = Span {
        least: 0,
        most: 0,
        constant: 0,
        bits: 1,
    };
    let mut spans = vec![in alloc; none; rows]?;
    let list = spans.as_mut_slice();
    for entry in entries {
        let row = entry.row as usize;
        let column = entry.column as usize;
        if row < list.len() && column < sides.len() {
            list[row] = widened(list[row], entry.value, sides[column]);
        }
    }
    Ok(spans)
}

/// Whether some activity of a row misses its limits.
fn can_bind(limits: Limits, span: Span) -> bool {
    let is_over = match limits.upper {
        Some(upper) => upper < span.most,
        None => false,
    };
    let is_under = match limits.lower {
        Some(lower) => span.least < lower,
        None => false,
    };
    is_over || is_under
}

/// The rows that can bind.
pub fn live_rows(alloc: Global, problem: &Boxed, sides: &[Side]) -> Result<Vec<Live>, AllocError> {
    let limits = problem.rows.as_slice();
    let spans = spans(alloc, limits.len(), problem.entries.as_slice(), sides)?;
    let list = spans.as_slice();
    let mut live = Vec::new(alloc);
    let mut row = 0u32;
    for (place, span) in list.iter().enumerate() {
        if place < limits.len() && can_bind(limits[place], *span) {
            let shift = if span.bits < 200 {
                span.bits as i32
            } else {
                200
            };
            let constant = span.constant;
            live.push(Live {
                row,
                shift: shift - 1,
                constant,
            })?;
        }
        row = row.wrapping_add(1);
    }
    Ok(live)
}

/// Each row's place among the live rows.
pub fn row_slots(alloc: Global, rows: usize, live: &[Live]) -> Result<Vec<u32>, AllocError> {
    let mut slots = vec![in alloc; NO_SLOT; rows]?;
    let list = slots.as_mut_slice();
    let mut slot = 0u32;
    for row in live {
        let place = row.row as usize;
        if place < list.len() {
            list[place] = slot;
        }
        slot = slot.wrapping_add(1);
    }
    Ok(slots)
}
