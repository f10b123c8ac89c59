use boxed_problem::{Boxed, Side};
use std::alloc::{AllocError, Global};

/// A place that stands for none.
pub const NO_SLOT: u32 = u32::MAX;

/// How many cuts there are at most on each side of a centre.
const CUTS_BELOW: u32 = 63;

/// A stretch of the side of a column that isn't single, with the mean cost of
/// one unit on it. A column without a square has one piece, and the pieces of a
/// column stand one after another.
#[derive(Clone, Copy, Debug, Drop)]
pub struct Piece {
    pub column: u32,
    pub start: i64,
    pub end: i64,
    pub slope: i128,
}

/// A column that isn't single: its number, its side, its cost for each unit and
/// for each square, and the place round which its pieces are finest.
#[derive(Clone, Copy, Debug, Drop)]
struct Curve {
    column: u32,
    side: Side,
    line: i128,
    square: i128,
    centre: i128,
}

/// The place at which a curve is least, rounded and cut to the side.
fn least_point(line: i128, square: i128, side: Side) -> i128 {
    square
        .saturating_sub(line)
        .checked_div_euclid(square.saturating_mul(2))
        .unwrap_or(0)
        .max(i128::from(side.lower))
        .min(i128::from(side.upper))
}

/// The curve of a column, none where the column is single or isn't there.
fn curve_at(problem: &Boxed, sides: &[Side], centres: &[i64], place: usize) -> Option<Curve> {
    let side = *sides.get(place)?;
    let line = *problem.line.as_slice().get(place)?;
    let square = *problem.square.as_slice().get(place)?;
    if side.upper <= side.lower {
        return None;
    }
    let centre = match centres.get(place) {
        Some(centre) => i128::from(*centre),
        None => least_point(line, square, side),
    };
    Some(Curve {
        column: u32::try_from(place).unwrap_or(NO_SLOT),
        side,
        line,
        square,
        centre,
    })
}

/// The place of a cut: the centre, and a power of two below and above it, from
/// the lowest to the highest.
fn cut_place(centre: i128, number: u32) -> i128 {
    if number < CUTS_BELOW {
        return centre.wrapping_sub(1i128.wrapping_shl(CUTS_BELOW - 1 - number));
    }
    if number == CUTS_BELOW {
        return centre;
    }
    centre.wrapping_add(1i128.wrapping_shl(number - CUTS_BELOW - 1))
}

/// Where a curve is cut by this number, none where that is outside its side.
fn cut_at(curve: &Curve, number: u32) -> Option<i64> {
    if curve.square == 0 {
        return None;
    }
    let place = cut_place(curve.centre, number);
    if place <= i128::from(curve.side.lower) || i128::from(curve.side.upper) <= place {
        return None;
    }
    i64::try_from(place).ok()
}

/// How many pieces a curve has.
fn count_of(curve: &Curve) -> usize {
    let mut count = 1usize;
    for number in 0..2 * CUTS_BELOW + 1 {
        if cut_at(curve, number).is_some() {
            count = count.saturating_add(1);
        }
    }
    count
}

/// How many pieces the columns have that aren't single.
pub fn count_pieces(problem: &Boxed, sides: &[Side], centres: &[i64]) -> usize {
    let mut count = 0usize;
    for place in 0..sides.len() {
        if let Some(curve) = curve_at(problem, sides, centres, place) {
            count = count.saturating_add(count_of(&curve));
        }
    }
    count
}

/// The piece of a curve between two places.
fn piece_between(curve: &Curve, start: i64, end: i64) -> Piece {
    let ends = i128::from(start).wrapping_add(i128::from(end));
    Piece {
        column: curve.column,
        start,
        end,
        slope: curve.line.wrapping_add(curve.square.wrapping_mul(ends)),
    }
}

/// Appends the pieces of a curve.
fn push_pieces(pieces: &mut Vec<Piece>, curve: &Curve) -> Result<(), AllocError> {
    let mut start = curve.side.lower;
    for number in 0..2 * CUTS_BELOW + 1 {
        if let Some(end) = cut_at(curve, number) {
            pieces.push(piece_between(curve, start, end))?;
            start = end;
        }
    }
    pieces.push(piece_between(curve, start, curve.side.upper))?;
    Ok(())
}

/// The pieces of the columns that aren't single. A column with a square is cut
/// finest round its centre, or where there is none round its least point.
pub fn pieces_of(
    alloc: Global,
    problem: &Boxed,
    sides: &[Side],
    centres: &[i64],
) -> Result<Vec<Piece>, AllocError> {
    let mut pieces = Vec::new(alloc);
    for place in 0..sides.len() {
        if let Some(curve) = curve_at(problem, sides, centres, place) {
            push_pieces(&mut pieces, &curve)?;
        }
    }
    Ok(pieces)
}

/// The place of each column's first piece.
pub fn column_slots(
    alloc: Global,
    columns: usize,
    pieces: &[Piece],
) -> Result<Vec<u32>, AllocError> {
    let mut slots = vec![in alloc; NO_SLOT; columns]?;
    let list = slots.as_mut_slice();
    let mut slot = 0u32;
    for piece in pieces {
        let place = piece.column as usize;
        if place < list.len() && list[place] == NO_SLOT {
            list[place] = slot;
        }
        slot = slot.wrapping_add(1);
    }
    Ok(slots)
}
