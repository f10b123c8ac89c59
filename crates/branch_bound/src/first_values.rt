ghost use Rattle.std.specs.Prelude.{◌≡◌, ◌<◌, IfOk, OnOk, length};
ghost use Rattle.std.specs.List.{AllByRecursion};
ghost use Rattle.boxed_problem.specs.Data.{problem_of};
ghost use Rattle.branch_bound.specs.Bettering.{IsPriced};
ghost use Rattle.branch_bound.specs.Frames.{Chain, IsFrame, IsStack};
ghost use Rattle.propagate.specs.SparseParts.{IsOf};
ghost use Rattle.branch_bound.specs.Narrowing.{IsFound, IsKnown};

use crate::frames::{Frame, Place, halve, push_two, root};
use crate::pacing::Pace;
use crate::pricing::Pricing;
use crate::stepping::{start, step};
use boxed_problem::{Best, Boxed};
use propagate::{Sparse, Trail};
use std::alloc::{AllocError, Global};
use wide_num::List;

/// Whether the simplex's own point lies above the middle of a column's side, which
/// is halved there.
fn is_above(pricing: &Pricing, place: Place) -> bool {
    let twice = match pricing.point.as_slice().get(place.column) {
        Some(at) => i128::from(*at).wrapping_mul(2),
        None => 0,
    };
    let ends = i128::from(place.side.lower).wrapping_add(i128::from(place.side.upper));
    twice > ends
}

/// Whether a column's values seem better the higher they are: by its cost at
/// the present prices, and where that is 0 by its linear part.
fn falls_upwards(problem: &Boxed, pricing: &Pricing, column: usize) -> bool {
    let line = problem.line.as_slice();
    let reduced = pricing.priced.line.as_slice();
    let cost = if column < reduced.len() {
        reduced[column]
    } else {
        0
    };
    cost < 0 || (cost == 0 && column < line.len() && line[column] < 0)
}

/// Whether the high half of a column's side seems better: it holds the simplex's
/// own point, or, where there is no simplex, higher values cost less.
fn prefers_high(problem: &Boxed, pricing: &Pricing, place: Place) -> bool {
    if pricing.simplex.is_idle() {
        falls_upwards(problem, pricing, place.column)
    } else {
        is_above(pricing, place)
    }
}

/// Opens a box, and puts its halves on the stack, the one that seems better on
/// top.
fn open_either(
    alloc: Global,
    problem: &Boxed,
    sparse: &Sparse,
    pricing: &mut Pricing,
    frame: Frame,
    best: &mut Option<Best>,
    trail: &mut Trail,
    frames: &mut List<Frame>,
) -> Result<(), AllocError>
    requires frame { IsFrame (problem_of problem.now) best.old trail.old frame }
    requires mark { frame.mark < length trail.old.marks }
    requires of { IsOf (problem_of problem.now) sparse.now }
    requires sparse { sparse.now ≡ trail.old.sparse.value }
    requires chain { Chain 0 frames.old frame.mark }
    requires frames { AllByRecursion (IsFrame (problem_of problem.now) best.old trail.old)
        frames.old }
    requires found { IsFound (problem_of problem.now) best.old }
    requires pricing { IsPriced (problem_of problem.now) pricing.old }
    ensures pricing { OnOk result (IsPriced (problem_of problem.now) pricing.new) }
    ensures same { OnOk result (trail.new.sparse.value ≡ trail.old.sparse.value) }
    ensures stack { OnOk result (IsStack (problem_of problem.now) best.new trail.new frames.new) }
    ensures found { OnOk result (IsFound (problem_of problem.now) best.new) }
{
    let Some(place) = step(alloc, problem, sparse, pricing, frame, best, trail)? else {
        return Ok(());
    };
    let mark = trail.mark()?;
    let halves = halve(mark, place);
    if prefers_high(problem, pricing, place) {
        push_two(frames, halves.low, halves.high)?;
    } else {
        push_two(frames, halves.high, halves.low)?;
    }
    Ok(())
}

/// A point to begin with and its value, where the point is feasible.
pub fn begun_at(
    alloc: Global,
    problem: &Boxed,
    start: &List<i64>,
) -> Result<Option<Best>, AllocError>
    ensures { IfOk result (λ begun. IsFound (problem_of problem.now) begun) }
{
    if !problem.feasible(start) {
        return Ok(None);
    }
    let point = List::from_slice(alloc, start.as_slice())?;
    let value = problem.value(&point);
    Ok(Some(Best { point, value }))
}

/// The value of the best feasible point that a search finds which opens at
/// most so many boxes, and the half that seems better first; or that of the
/// feasible point that it begins with, where it finds none that is better.
pub fn first_value(
    alloc: Global,
    problem: &Boxed,
    sparse: &Sparse,
    pricing: &mut Pricing,
    begun: Option<Best>,
    tries: u64,
) -> Result<Option<i128>, AllocError>
    requires of { IsOf (problem_of problem.now) sparse.now }
    requires pricing { IsPriced (problem_of problem.now) pricing.old }
    requires begun { IsFound (problem_of problem.now) begun }
    ensures pricing { OnOk result (IsPriced (problem_of problem.now) pricing.new) }
    ensures known { IfOk result (λ known. IsKnown (problem_of problem.now) known) }
{
    pricing.pace = Pace::first();
    let mut trail = start(alloc, problem, sparse)?;
    let mut frames = List::new(alloc);
    frames.push(root(problem.columns.as_slice()))?;
    let mut best = begun;
    for _ in 0..tries {
        let Some(frame) = frames.pop() else {
            break;
        };
        open_either(
            alloc,
            problem,
            sparse,
            pricing,
            frame,
            &mut best,
            &mut trail,
            &mut frames,
        )?;
    }
    match best {
        Some(best) => Ok(Some(best.value)),
        None => Ok(None),
    }
}
