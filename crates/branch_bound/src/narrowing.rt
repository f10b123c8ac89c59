ghost use Rattle.std.specs.Prelude.{◌≡◌, true, false, IfOk, OnOk};
ghost use Rattle.boxed_problem.specs.Data.{problem_of};
ghost use Rattle.boxed_problem.specs.Sides.{Within};
ghost use Rattle.branch_bound.specs.Bettering.{IsPriced, Narrows};
ghost use Rattle.branch_bound.specs.Narrowing.{KeepsBetter, NoneBelow};
ghost use Rattle.propagate.specs.SparseParts.{IsOf};
ghost use Rattle.propagate.specs.Tightening.{HoldsNone, HoldsSame};
ghost use Rattle.propagate.specs.Trails.{KeepsAllMarks};

use crate::bettering::narrow_by;
use crate::halving::first_wide;
use crate::pricing::Pricing;
use crate::suggesting::{raise_prices, ray_prices};
use boxed_problem::{Best, Boxed};
use dual_simplex::Stop;
use propagate::{Sparse, Trail, TrailFault, tighten_on};
use safe_bound::reduce_by;
use std::alloc::{AllocError, Global};

/// How often the rows and the objective are gone through in turn at most.
const TURNS: usize = 20;

/// Narrows sides by the rows. It answers false only where no point of them
/// meets the rows.
fn narrow_by_rows(problem: &Boxed, sparse: &Sparse, trail: &mut Trail) -> Result<bool, AllocError>
    requires of { IsOf (problem_of problem.now) sparse.now }
    requires sparse { sparse.now ≡ trail.old.sparse.value }
    ensures holds { HoldsSame (problem_of problem.now) trail.old.sides trail.new.sides }
    ensures marks { KeepsAllMarks trail.old trail.new }
    ensures none { IfOk result
        (λ some. some ≡ false → HoldsNone (problem_of problem.now) trail.old.sides) }
{
    match tighten_on(trail, problem, sparse) {
        Ok(()) => Ok(true),
        Err(TrailFault::Empty { row: _ }) => Ok(false),
        Err(TrailFault::Memory) => Err(AllocError),
    }
}

/// Narrows sides by the objective and by the present prices. It answers false
/// only where no point of them that meets the rows is below the best so far.
fn narrow_by_prices(
    problem: &Boxed,
    sparse: &Sparse,
    pricing: &Pricing,
    best: &Option<Best>,
    trail: &mut Trail,
) -> Result<bool, AllocError>
    requires of { IsOf (problem_of problem.now) sparse.now }
    requires sparse { sparse.now ≡ trail.old.sparse.value }
    requires pricing { IsPriced (problem_of problem.now) pricing.now }
    ensures narrows { OnOk result (Narrows (problem_of problem.now) best.now trail.old trail.new) }
    ensures none { IfOk result
        (λ some. some ≡ false → NoneBelow (problem_of problem.now) best.now trail.new.sides) }
{
    if !narrow_by(problem, sparse, &pricing.plain, pricing.grid, best, trail)? {
        return Ok(false);
    }
    let some = narrow_by(problem, sparse, &pricing.priced, pricing.grid, best, trail)?;
    Ok(some)
}

/// Narrows sides, and loses no point on them that meets the rows and is below
/// the best so far. It answers false only where there is none.
fn narrow(
    problem: &Boxed,
    sparse: &Sparse,
    pricing: &Pricing,
    best: &Option<Best>,
    trail: &mut Trail,
) -> Result<bool, AllocError>
    requires of { IsOf (problem_of problem.now) sparse.now }
    requires sparse { sparse.now ≡ trail.old.sparse.value }
    requires pricing { IsPriced (problem_of problem.now) pricing.now }
    ensures narrows { OnOk result (Narrows (problem_of problem.now) best.now trail.old trail.new) }
    ensures none { IfOk result
        (λ some. some ≡ false → NoneBelow (problem_of problem.now) best.now trail.old.sides) }
{
    let mut seen = usize::MAX;
    for _ in 0..TURNS {
        if !narrow_by_rows(problem, sparse, trail)? {
            return Ok(false);
        }
        if trail.changes.len() == seen {
            break;
        }
        seen = trail.changes.len();
        if !narrow_by_prices(problem, sparse, pricing, best, trail)? {
            return Ok(false);
        }
        if trail.changes.len() == seen {
            break;
        }
        seen = trail.changes.len();
    }
    Ok(true)
}

/// Narrows sides by the prices that a ray of the simplex leads to, if it stopped
/// at one. It answers false only where no point of them that meets the rows is
/// below the best so far.
fn narrow_by_ray(
    alloc: Global,
    problem: &Boxed,
    sparse: &Sparse,
    pricing: &Pricing,
    best: &Option<Best>,
    trail: &mut Trail,
    stop: Stop,
) -> Result<bool, AllocError>
    requires of { IsOf (problem_of problem.now) sparse.now }
    requires sparse { sparse.now ≡ trail.old.sparse.value }
    requires pricing { IsPriced (problem_of problem.now) pricing.now }
    ensures narrows { OnOk result (Narrows (problem_of problem.now) best.now trail.old trail.new) }
    ensures none { IfOk result
        (λ some. some ≡ false → NoneBelow (problem_of problem.now) best.now trail.new.sides) }
{
    let Some(prices) = ray_prices(alloc, problem, pricing, stop)? else {
        return Ok(true);
    };
    let reduced = reduce_by(problem, &prices)?;
    let some = narrow_by(problem, sparse, &reduced, pricing.grid, best, trail)?;
    Ok(some)
}

/// Narrows sides by a ray of the simplex, if it stopped at one, and then by the
/// rows and the prices in turn.
fn narrow_raised(
    alloc: Global,
    problem: &Boxed,
    sparse: &Sparse,
    pricing: &Pricing,
    best: &Option<Best>,
    trail: &mut Trail,
    stop: Stop,
) -> Result<bool, AllocError>
    requires of { IsOf (problem_of problem.now) sparse.now }
    requires sparse { sparse.now ≡ trail.old.sparse.value }
    requires pricing { IsPriced (problem_of problem.now) pricing.now }
    ensures narrows { OnOk result (Narrows (problem_of problem.now) best.now trail.old trail.new) }
    ensures none { IfOk result
        (λ some. some ≡ false → NoneBelow (problem_of problem.now) best.now trail.old.sides) }
{
    if !narrow_by_ray(alloc, problem, sparse, pricing, best, trail, stop)? {
        return Ok(false);
    }
    let some = narrow(problem, sparse, pricing, best, trail)?;
    Ok(some)
}

/// Improves the prices over the present sides, and narrows these by them.
fn narrow_again(
    alloc: Global,
    problem: &Boxed,
    sparse: &Sparse,
    pricing: &mut Pricing,
    best: &Option<Best>,
    trail: &mut Trail,
) -> Result<bool, AllocError>
    requires of { IsOf (problem_of problem.now) sparse.now }
    requires sparse { sparse.now ≡ trail.old.sparse.value }
    requires pricing { IsPriced (problem_of problem.now) pricing.old }
    ensures pricing { OnOk result (IsPriced (problem_of problem.now) pricing.new) }
    ensures narrows { OnOk result (Narrows (problem_of problem.now) best.now trail.old trail.new) }
    ensures none { IfOk result
        (λ some. some ≡ false → NoneBelow (problem_of problem.now) best.now trail.old.sides) }
{
    let stop = raise_prices(alloc, problem, &trail.sides, pricing)?;
    let before = trail.changes.len();
    let some = narrow_raised(alloc, problem, sparse, pricing, best, trail, stop)?;
    let useful = !some || trail.changes.len() > before;
    pricing.pace.note(useful);
    Ok(some)
}

/// Narrows sides, improves the prices where it is their turn, and loses no
/// point on the sides that meets the rows and is below the best so far. It
/// answers false only where there is none.
pub fn narrow_priced(
    alloc: Global,
    problem: &Boxed,
    sparse: &Sparse,
    pricing: &mut Pricing,
    best: &Option<Best>,
    trail: &mut Trail,
) -> Result<bool, AllocError>
    requires of { IsOf (problem_of problem.now) sparse.now }
    requires sparse { sparse.now ≡ trail.old.sparse.value }
    requires pricing { IsPriced (problem_of problem.now) pricing.old }
    ensures pricing { OnOk result (IsPriced (problem_of problem.now) pricing.new) }
    ensures narrows { OnOk result (Narrows (problem_of problem.now) best.now trail.old trail.new) }
    ensures none { IfOk result
        (λ some. some ≡ false → NoneBelow (problem_of problem.now) best.now trail.old.sides) }
{
    if !narrow(problem, sparse, pricing, best, trail)? {
        return Ok(false);
    }
    if first_wide(trail.sides.as_slice()).is_none() || !pricing.pace.is_due() {
        return Ok(true);
    }
    let some = narrow_again(alloc, problem, sparse, pricing, best, trail)?;
    Ok(some)
}
