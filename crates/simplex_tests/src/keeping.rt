ghost use Rattle.std.specs.Prelude.{◌≡◌};
ghost use Rattle.boxed_problem.specs.Data.{problem_of};

use crate::bounding::bound_of;
use crate::problems::problem;
use boxed_problem::{Boxed, Side};
use dual_simplex::{Simplex, Stop};
use std::alloc::{AllocError, Global};
use std::test::Fail;
use wide_num::List;

/// A problem of eight columns whose sides begin below 0.
fn problem_below_zero(alloc: Global) -> Result<Option<Boxed>, AllocError> {
    let ends = [
        (-7, 23),
        (-5, 13),
        (-6, 20),
        (-17, 20),
        (-15, 30),
        (-9, 8),
        (-18, 5),
        (-15, 18),
    ];
    let costs = [344, 661, 671, -896, 525, 12, -355, 577];
    let rows = [
        (Some(182), None),
        (None, Some(17)),
        (Some(52), Some(52)),
        (Some(246), None),
        (None, Some(-173)),
    ];
    let matrix = [
        9, 1, 0, 3, 4, 7, 5, 2, -2, -9, 8, -6, 0, 7, 4, -3, 9, 6, 7, -8, 3, -4, 2, 0, 7, 2, -9, 0,
        9, -4, 0, 8, 8, 7, 9, -1, -9, 7, 7, -3,
    ];
    let mut sides = List::new(alloc);
    for (lower, upper) in ends {
        sides.push(Side { lower, upper })?;
    }
    problem(alloc, sides, &costs, &[], &rows, &matrix)
}

/// Whether a simplex finds a best basis on these sides.
fn finds_best(simplex: &mut Simplex, problem: &Boxed, sides: &[Side]) -> bool
    requires { problem_of simplex.old.problem.value ≡ problem_of problem.now }
    ensures { problem_of simplex.new.problem.value ≡ problem_of problem.now }
{
    let stop = simplex.improve(problem, sides, 1000);
    matches!(stop, Stop::Optimal)
}

/// The bound of the best basis on these sides, if a simplex finds it.
fn bound_on(
    alloc: Global,
    simplex: &mut Simplex,
    problem: &Boxed,
    sides: &[Side],
) -> Result<Option<i128>, AllocError>
    requires { problem_of simplex.old.problem.value ≡ problem_of problem.now }
    ensures { problem_of simplex.new.problem.value ≡ problem_of problem.now }
{
    if !finds_best(simplex, problem, sides) {
        return Ok(None);
    }
    let found = bound_of(alloc, simplex, problem, sides)?;
    Ok(Some(found))
}

/// Whether a simplex, kept or made anew for each, finds the bounds on sides that
/// are halved column after column: the least values without wholeness that another
/// solver finds, rounded up.
fn finds_bounds(
    alloc: Global,
    simplex: &mut Simplex,
    problem: &Boxed,
    is_new: bool,
) -> Result<bool, AllocError>
    requires { problem_of simplex.old.problem.value ≡ problem_of problem.now }
    ensures { problem_of simplex.new.problem.value ≡ problem_of problem.now }
{
    let halves = [
        (0, -7, 23, -16402),
        (0, -7, 8, -9627),
        (1, -5, 4, -9627),
        (2, 8, 20, -1297),
        (3, 2, 20, -1297),
        (4, 8, 30, -1297),
        (5, 0, 8, 4298),
        (6, -18, -7, 8547),
        (7, 2, 18, 9918),
    ];
    let whole = problem.columns.as_slice();
    let mut sides = List::from_slice(alloc, whole)?.into_vec();
    for (column, lower, upper, wanted) in halves {
        if let Some(side) = sides.get_mut(column) {
            *side = Side { lower, upper };
        }
        if is_new {
            *simplex = Simplex::new(alloc, problem, whole, &[], 1000)?;
        }
        if bound_on(alloc, simplex, problem, sides.as_slice())? != Some(wanted) {
            return Ok(false);
        }
    }
    Ok(true)
}

#[test]
fn a_kept_basis_gives_the_bounds_of_a_new_one(rt: HostRuntime) -> Result<(), Fail> {
    let alloc = rt.alloc();
    let problem = problem_below_zero(alloc)?.expect(&rt, "a problem");
    let whole = problem.columns.as_slice();
    let mut simplex = Simplex::new(alloc, &problem, whole, &[], 1000)?;
    assert!(rt; finds_bounds(alloc, &mut simplex, &problem, false)?);
    assert!(rt; simplex.made() < 30);
    assert!(rt; finds_bounds(alloc, &mut simplex, &problem, true)?);
    Ok(())
}

/// Whether a simplex that is kept finds the bounds so many times.
fn finds_bounds_often(
    alloc: Global,
    simplex: &mut Simplex,
    problem: &Boxed,
    times: u32,
) -> Result<bool, AllocError>
    requires { problem_of simplex.old.problem.value ≡ problem_of problem.now }
    ensures { problem_of simplex.new.problem.value ≡ problem_of problem.now }
{
    for _ in 0..times {
        if !finds_bounds(alloc, simplex, problem, false)? {
            return Ok(false);
        }
    }
    Ok(true)
}

/// After 400 pivots the table is made anew from the basis.
#[test]
fn a_table_made_anew_gives_the_same_bounds(rt: HostRuntime) -> Result<(), Fail> {
    let alloc = rt.alloc();
    let problem = problem_below_zero(alloc)?.expect(&rt, "a problem");
    let whole = problem.columns.as_slice();
    let mut simplex = Simplex::new(alloc, &problem, whole, &[], 1000)?;
    assert!(rt; finds_bounds_often(alloc, &mut simplex, &problem, 60)?);
    assert!(rt; simplex.made() > 800);
    Ok(())
}
