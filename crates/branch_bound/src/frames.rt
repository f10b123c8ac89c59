ghost use Rattle.std.specs.Prelude.{◌≡◌, ◌+◌, ◌<◌, ◌≤◌, ◌≤ℤ◌, ◌<ℤ◌, ◌+ℤ◌, pos, Some, None, OnOk, MatchOption, ◌∷◌, ◌++◌, [], length, slice_set};
ghost use Rattle.branch_bound.specs.Halves.{halves, high_half, low_half, middle};
ghost use Rattle.boxed_problem.specs.Sides.{Within, side_at};
ghost use Rattle.branch_bound.specs.Frames.{IsReached, SingleTo, clip, tree_box};
ghost use Rattle.branch_bound.specs.Narrowing.{Descends};
ghost use Rattle.propagate.specs.Ranged.{IsInside};
ghost use Rattle.propagate.specs.Trails.{KeepsMarks, sides_at};

use crate::halving::middle;
use boxed_problem::Side;
use propagate::{Sparse, Trail};
use std::alloc::AllocError;
use wide_num::List;

/// A box of the halving tree that is still to be opened: its side at one
/// column, before which all columns are single, and behind which no column is
/// halved yet; and the mark of the sides of the box that it is a half of.
#[derive(Clone, Copy, Debug, Drop, PartialEq, Eq)]
pub struct Frame {
    pub mark: usize,
    pub column: usize,
    pub half: Side,
}

/// A column with its side in a box of the halving tree.
#[derive(Clone, Copy, Debug, Drop, PartialEq, Eq)]
pub struct Place {
    pub column: usize,
    pub side: Side,
}

/// The side of a column.
pub fn side_at(columns: &[Side], column: usize) -> Side
    ensures { result ≡ side_at columns.now column }
{
    if column < columns.len() {
        columns[column]
    } else {
        Side { lower: 0, upper: 0 }
    }
}

/// The whole box, with the sides before any change.
pub fn root(columns: &[Side]) -> Frame
    ensures { result ≡ record { mark = 0; column = 0; half = side_at columns.now 0 } }
{
    Frame {
        mark: 0,
        column: 0,
        half: side_at(columns, 0),
    }
}

/// The part of a side up to its middle.
pub fn low_part(side: Side) -> Side
    requires { side.lower <ℤ side.upper }
    ensures { result ≡ low_half side }
{
    Side {
        lower: side.lower,
        upper: middle(side),
    }
}

/// The part of a side above its middle.
pub fn high_part(side: Side) -> Side
    requires { side.lower <ℤ side.upper }
    ensures { result ≡ high_half side }
{
    Side {
        lower: middle(side) + 1,
        upper: side.upper,
    }
}

/// What two sides have in common.
fn common(half: Side, side: Side) -> Side
    ensures { result ≡ clip half side }
{
    Side {
        lower: half.lower.max(side.lower),
        upper: half.upper.min(side.upper),
    }
}

/// Gives back the sides at a mark, and keeps the mark.
fn go_back(trail: &mut Trail, sparse: &Sparse, mark: usize) -> Result<(), AllocError>
    requires mark { mark < length trail.old.marks }
    requires sparse { sparse.now ≡ trail.old.sparse.value }
    ensures sides { OnOk result (trail.new.sides ≡ sides_at trail.old mark) }
    ensures marks { OnOk result (KeepsMarks (mark + 1) trail.old trail.new) }
{
    trail.undo(sparse, mark);
    trail.mark()?;
    Ok(())
}

/// Goes to the box of a frame, with what the sides at its mark have in it.
pub fn enter(trail: &mut Trail, sparse: &Sparse, frame: Frame) -> Result<(), AllocError>
    requires mark { frame.mark < length trail.old.marks }
    requires sparse { sparse.now ≡ trail.old.sparse.value }
    requires side { frame.column < length (sides_at trail.old frame.mark) →
        IsInside (clip frame.half (side_at (sides_at trail.old frame.mark) frame.column))
        (side_at (sides_at trail.old frame.mark) frame.column) }
    ensures sides { OnOk result
        (trail.new.sides
        ≡ slice_set (sides_at trail.old frame.mark) frame.column
        (clip frame.half (side_at (sides_at trail.old frame.mark) frame.column))) }
    ensures marks { OnOk result (KeepsMarks (frame.mark + 1) trail.old trail.new) }
{
    go_back(trail, sparse, frame.mark)?;
    if frame.column < trail.sides.len() {
        let side = common(frame.half, trail.sides.as_slice()[frame.column]);
        trail.narrow_at(sparse, frame.column, side)?;
    }
    Ok(())
}

/// Goes down the halving tree to the smallest box that holds the sides, and
/// answers the column at which that one is halved, none where the sides are
/// single.
pub fn walk(columns: &[Side], sides: &[Side], column: usize, half: Side) -> Option<Place>
    requires long { length sides.now ≡ length columns.now }
    requires single { SingleTo sides.now column }
    requires holds { Within sides.now (tree_box columns.now sides.now column half) }
    ensures { MatchOption result
        (Descends sides.now (tree_box columns.now sides.now column half) sides.now
        × (halves sides.now ≡ None))
        (λ place. IsReached columns.now sides.now (tree_box columns.now sides.now column half)
        place) }
{
    let mut at = column;
    let mut side = half;
    while at < columns.len() {
        let inner = sides[at];
        if side.upper <= side.lower {
            at += 1;
            side = side_at(columns, at);
        } else if inner.upper <= middle(side) {
            side = low_part(side);
        } else if middle(side) < inner.lower {
            side = high_part(side);
        } else {
            return Some(Place { column: at, side });
        }
    }
    None
}

/// The two halves of a box, to be opened later.
#[derive(Clone, Copy, Debug, Drop, PartialEq, Eq)]
pub struct Pair {
    pub low: Frame,
    pub high: Frame,
}

/// Halves a box at a place, with the sides at a mark.
pub fn halve(mark: usize, place: Place) -> Pair
    requires { place.side.lower <ℤ place.side.upper }
    ensures low { result.low
        ≡ record { mark = mark; column = place.column; half = low_half place.side } }
    ensures high { result.high
        ≡ record { mark = mark; column = place.column; half = high_half place.side } }
{
    let column = place.column;
    Pair {
        low: Frame {
            mark,
            column,
            half: low_part(place.side),
        },
        high: Frame {
            mark,
            column,
            half: high_part(place.side),
        },
    }
}

/// Puts two frames on the stack, the second on top.
pub fn push_two(frames: &mut List<Frame>, below: Frame, top: Frame) -> Result<(), AllocError>
    ensures { OnOk result (frames.new ≡ (frames.old ++ below ∷ []) ++ top ∷ []) }
{
    frames.push(below)?;
    frames.push(top)?;
    Ok(())
}
