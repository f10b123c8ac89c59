ghost use Rattle.std.specs.Prelude.{◌≡◌, ◌+◌, ◌<◌, true, false, IfOk, OnOk, length};
ghost use Rattle.boxed_problem.specs.Data.{problem_of};
ghost use Rattle.boxed_problem.specs.Optimum.{priced};
ghost use Rattle.branch_bound.specs.PlainSearch.{is_pruned};
ghost use Rattle.boxed_problem.specs.Sides.{Within, corner};
ghost use Rattle.branch_bound.specs.Bettering.{IsPriced};
ghost use Rattle.branch_bound.specs.Frames.{IsFrame, IsRooted, IsStep, box_of, node_of};
ghost use Rattle.branch_bound.specs.Narrowing.{Falls, IsFound, KeepsBetter, NoneBelow};
ghost use Rattle.propagate.specs.SparseParts.{IsOf};
ghost use Rattle.propagate.specs.Trails.{KeepsMarks, sides_at};

use crate::frames::{Frame, Place, enter, walk};
use crate::narrowing::narrow_priced;
use crate::pricing::Pricing;
use crate::pruning::is_pruned;
use boxed_problem::{Best, Boxed, Side, first_point};
use propagate::{Sparse, Trail, trail_of};
use std::alloc::{AllocError, Global};
use wide_num::List;

/// A trail of the problem's box, which is remembered under its first mark.
pub fn start(alloc: Global, problem: &Boxed, sparse: &Sparse) -> Result<Trail, AllocError>
    requires { IsOf (problem_of problem.now) sparse.now }
    ensures rooted { IfOk result (λ trail. IsRooted (problem_of problem.now) trail) }
    ensures sparse { IfOk result (λ trail. sparse.now ≡ trail.sparse.value) }
{
    let mut trail = trail_of(alloc, problem, sparse)?;
    trail.mark()?;
    Ok(trail)
}

/// The only point of a box of single columns, with its value.
fn only_point(alloc: Global, problem: &Boxed, sides: &List<Side>) -> Result<Best, AllocError>
    requires { Within sides.now problem.now.columns }
    ensures { IfOk result (λ best. best ≡ priced (problem_of problem.now) (corner sides.now)) }
{
    let point = first_point(alloc, sides.as_slice())?;
    let value = problem.value(&point);
    Ok(Best { point, value })
}

/// Goes to the box of a frame, and narrows its sides. It answers false where
/// the box is pruned.
fn reach(
    alloc: Global,
    problem: &Boxed,
    sparse: &Sparse,
    pricing: &mut Pricing,
    best: &Option<Best>,
    trail: &mut Trail,
    frame: Frame,
) -> Result<bool, AllocError>
    requires frame { IsFrame (problem_of problem.now) best.now trail.old frame }
    requires mark { frame.mark < length trail.old.marks }
    requires of { IsOf (problem_of problem.now) sparse.now }
    requires sparse { sparse.now ≡ trail.old.sparse.value }
    requires pricing { IsPriced (problem_of problem.now) pricing.old }
    ensures pricing { OnOk result (IsPriced (problem_of problem.now) pricing.new) }
    ensures marks { OnOk result (KeepsMarks (frame.mark + 1) trail.old trail.new) }
    ensures within { OnOk result
        (Within trail.new.sides
        (node_of problem.now.columns (sides_at trail.old frame.mark) frame).sides) }
    ensures keeps { OnOk result
        (KeepsBetter (problem_of problem.now) best.now
        (node_of problem.now.columns (sides_at trail.old frame.mark) frame).sides
        trail.new.sides) }
    ensures pruned { IfOk result
        (λ on. on ≡ false →
        NoneBelow (problem_of problem.now) best.now (box_of problem.now.columns trail.old frame)) }
    ensures on { IfOk result
        (λ on. on ≡ true → is_pruned (problem_of problem.now) trail.new.sides best.now ≡ false) }
{
    enter(trail, sparse, frame)?;
    if !narrow_priced(alloc, problem, sparse, pricing, best, trail)? {
        return Ok(false);
    }
    Ok(!is_pruned(problem, sparse, trail, best))
}

/// Opens the box of a frame: leaves it, or takes the only point that its sides
/// leave, or answers where the smallest box that holds its sides is halved.
pub fn step(
    alloc: Global,
    problem: &Boxed,
    sparse: &Sparse,
    pricing: &mut Pricing,
    frame: Frame,
    best: &mut Option<Best>,
    trail: &mut Trail,
) -> Result<Option<Place>, AllocError>
    requires frame { IsFrame (problem_of problem.now) best.old trail.old frame }
    requires mark { frame.mark < length trail.old.marks }
    requires of { IsOf (problem_of problem.now) sparse.now }
    requires sparse { sparse.now ≡ trail.old.sparse.value }
    requires pricing { IsPriced (problem_of problem.now) pricing.old }
    ensures pricing { OnOk result (IsPriced (problem_of problem.now) pricing.new) }
    ensures marks { OnOk result (KeepsMarks (frame.mark + 1) trail.old trail.new) }
    ensures falls { OnOk result (Falls best.old best.new) }
    ensures found { OnOk result
        (IsFound (problem_of problem.now) best.old → IsFound (problem_of problem.now) best.new) }
    ensures step { IfOk result
        (λ place. IsStep (problem_of problem.now) best.old best.new
        (box_of problem.now.columns trail.old frame) trail.new.sides place) }
{
    if !reach(alloc, problem, sparse, pricing, best, trail, frame)? {
        return Ok(None);
    }
    let columns = problem.columns.as_slice();
    let Some(place) = walk(columns, trail.sides.as_slice(), frame.column, frame.half) else {
        let point = only_point(alloc, problem, &trail.sides)?;
        *best = Some(point);
        return Ok(None);
    };
    Ok(Some(place))
}
