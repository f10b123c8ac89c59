ghost use Rattle.std.specs.Prelude.{◌≡◌, ◌<◌, ℕ, ◌+◌, OnOk, length};
ghost use Rattle.std.specs.List.{AllByRecursion};
ghost use Rattle.boxed_problem.specs.Data.{problem_of};
ghost use Rattle.branch_bound.specs.PlainSearch.{search, search_all};
ghost use Rattle.branch_bound.specs.Answers.{IsAnswer};
ghost use Rattle.branch_bound.specs.Bettering.{IsPriced};
ghost use Rattle.branch_bound.specs.Frames.{Chain, IsFrame, IsStack, box_of, boxes_of};
ghost use Rattle.propagate.specs.SparseParts.{IsOf};
ghost use Rattle.branch_bound.specs.Narrowing.{IsBar, IsFound, IsKnown, NotPast};

use crate::fault::SolveFault;
use crate::first_values::{begun_at, first_value};
use crate::frames::{Frame, halve, push_two, root};
use crate::pacing::Pace;
use crate::pricing::{Pricing, pricing_of};
use crate::stepping::{start, step};
use boxed_problem::{Best, Boxed};
use propagate::{Sparse, Trail, sparse_of};
use std::alloc::{AllocError, Global};
use wide_num::List;

/// How many boxes the first pass may open at most, which aren't counted.
const FIRST_PASS_BOXES: u64 = 50_000;

/// Opens a box, and puts its halves on the stack, the low one on top.
fn open(
    alloc: Global,
    problem: &Boxed,
    sparse: &Sparse,
    pricing: &mut Pricing,
    frame: Frame,
    best: &mut Option<Best>,
    trail: &mut Trail,
    frames: &mut List<Frame>,
) -> Result<(), AllocError>
    requires frame { IsFrame (problem_of problem.now) best.old trail.old frame }
    requires mark { frame.mark < length trail.old.marks }
    requires of { IsOf (problem_of problem.now) sparse.now }
    requires sparse { sparse.now ≡ trail.old.sparse.value }
    requires chain { Chain 0 frames.old frame.mark }
    requires frames { AllByRecursion (IsFrame (problem_of problem.now) best.old trail.old)
        frames.old }
    requires pricing { IsPriced (problem_of problem.now) pricing.old }
    ensures pricing { OnOk result (IsPriced (problem_of problem.now) pricing.new) }
    ensures same { OnOk result (trail.new.sparse.value ≡ trail.old.sparse.value) }
    ensures stack { OnOk result (IsStack (problem_of problem.now) best.new trail.new frames.new) }
    ensures search { OnOk result
        ((n : ℕ) →
        NotPast
        (search_all (problem_of problem.now)
        (boxes_of problem.now.columns trail.new frames.new)
        (record { best = best.new; opened = n + 1 }))
        (search_all (problem_of problem.now)
        (boxes_of problem.now.columns trail.old frames.old)
        (search (problem_of problem.now) (box_of problem.now.columns trail.old frame)
        (record { best = best.old; opened = n })))) }
{
    let Some(place) = step(alloc, problem, sparse, pricing, frame, best, trail)? else {
        return Ok(());
    };
    let mark = trail.mark()?;
    let halves = halve(mark, place);
    push_two(frames, halves.high, halves.low)?;
    Ok(())
}

/// What the search begins with: nothing, or what each point of at most the
/// known value is below.
fn bar(alloc: Global, problem: &Boxed, known: Option<i128>) -> Option<Best>
    requires { IsKnown (problem_of problem.now) known }
    ensures { IsBar (problem_of problem.now) result }
{
    let _problem = problem;
    match known {
        Some(value) => Some(Best {
            point: List::new(alloc),
            value: value + 1,
        }),
        None => None,
    }
}

/// The answer of `solve`, where some feasible point has the known value, if one
/// is known: the boxes of the halving tree in order, by depth.
pub fn solve_below(
    alloc: Global,
    problem: &Boxed,
    sparse: &Sparse,
    pricing: &mut Pricing,
    known: Option<i128>,
    budget: u64,
) -> Result<Best, SolveFault>
    requires of { IsOf (problem_of problem.now) sparse.now }
    requires pricing { IsPriced (problem_of problem.now) pricing.old }
    requires known { IsKnown (problem_of problem.now) known }
    ensures { IsAnswer (problem_of problem.now) budget result }
{
    pricing.pace = Pace::first();
    let Ok(mut trail) = start(alloc, problem, sparse) else {
        return Err(SolveFault::Memory);
    };
    let mut frames = List::new(alloc);
    let Ok(()) = frames.push(root(problem.columns.as_slice())) else {
        return Err(SolveFault::Memory);
    };
    let mut best = bar(alloc, problem, known);
    let mut opened = 0u64;
    while let Some(frame) = frames.pop() {
        if opened == budget {
            return Err(SolveFault::Spent { opened });
        }
        let Ok(()) = open(
            alloc,
            problem,
            sparse,
            pricing,
            frame,
            &mut best,
            &mut trail,
            &mut frames,
        ) else {
            return Err(SolveFault::Memory);
        };
        opened += 1;
    }
    match best {
        Some(best) => Ok(best),
        None => Err(SolveFault::Infeasible),
    }
}

/// The answer of `solve`, by a search that may begin with a feasible point.
fn solve_begun(
    alloc: Global,
    problem: &Boxed,
    begun: Option<Best>,
    budget: u64,
) -> Result<Best, SolveFault>
    requires { IsFound (problem_of problem.now) begun }
    ensures { IsAnswer (problem_of problem.now) budget result }
{
    let Ok(sparse) = sparse_of(alloc, problem) else {
        return Err(SolveFault::Memory);
    };
    let Ok(mut pricing) = pricing_of(alloc, problem) else {
        return Err(SolveFault::Memory);
    };
    let tries = (budget / 10).min(FIRST_PASS_BOXES);
    let Ok(known) = first_value(alloc, problem, &sparse, &mut pricing, begun, tries) else {
        return Err(SolveFault::Memory);
    };
    solve_below(alloc, problem, &sparse, &mut pricing, known, budget)
}

/// The least value over the feasible points, and the first point in the order
/// of columns, smaller values first, that has it. `Infeasible` comes only
/// where no point is feasible, and `Spent` only where the plain search opens
/// more boxes than the budget; `opened` is then the budget.
pub fn solve(alloc: Global, problem: &Boxed, budget: u64) -> Result<Best, SolveFault>
    ensures { IsAnswer (problem_of problem.now) budget result }
{
    solve_begun(alloc, problem, None, budget)
}

/// As `solve`, with a point to begin with: where it is feasible, its value is
/// known from the start, and no box is searched for points that are worse. The
/// answer is that of `solve` whatever the point is, but for `Spent`, which a good
/// point may spare; one that isn't feasible, or has another length, is passed over.
pub fn solve_from(
    alloc: Global,
    problem: &Boxed,
    start: &List<i64>,
    budget: u64,
) -> Result<Best, SolveFault>
    ensures { IsAnswer (problem_of problem.now) budget result }
{
    let Ok(begun) = begun_at(alloc, problem, start) else {
        return Err(SolveFault::Memory);
    };
    solve_begun(alloc, problem, begun, budget)
}
