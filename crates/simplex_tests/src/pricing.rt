use crate::bounding::{bound_of, bound_on_ray};
use crate::problems::{from_zero, problem};
use boxed_problem::{Boxed, Side};
use dual_simplex::{Simplex, Stop};
use std::alloc::{AllocError, Global};
use std::process::Abort;
use std::test::Fail;
use wide_num::List;

/// The bound at the basis at which a new simplex of a problem stops.
fn bound_at_best(rt: &impl Abort, alloc: Global, given: Option<Boxed>) -> Result<i128, AllocError> {
    let problem = given.expect(rt, "a problem");
    let sides = problem.columns.as_slice();
    let mut simplex = Simplex::new(alloc, &problem, sides, &[], 1000)?;
    let stop = simplex.improve(&problem, sides, 1000);
    assert!(rt; matches!(stop, Stop::Optimal));
    bound_of(alloc, &simplex, &problem, sides)
}

/// The least value without wholeness is that of another solver, rounded up.
#[test]
fn prices_a_knapsack(rt: HostRuntime) -> Result<(), Fail> {
    let alloc = rt.alloc();
    let costs = [
        -2900, -3300, -3400, -3900, -5700, -3000, -3800, -2900, -3000, -4700,
    ];
    let weights = [
        17, 55, 15, 43, 59, 24, 58, 32, 6, 47, 19, 22, 56, 22, 24, 15, 20, 17, 32, 51, 8, 10, 29,
        38, 45, 16, 20, 35, 20, 14,
    ];
    let rows = [(None, Some(118)), (None, Some(92)), (None, Some(78))];
    let sides = from_zero(alloc, 1, 10)?;
    let knapsack = problem(alloc, sides, &costs, &[], &rows, &weights)?;
    assert_eq!(rt; bound_at_best(&rt, alloc, knapsack)?, -14358);
    Ok(())
}

/// Two places have 30 and 40, and three want 20, 25 and 15.
#[test]
fn prices_a_transport_of_equations(rt: HostRuntime) -> Result<(), Fail> {
    let alloc = rt.alloc();
    let costs = [8, 6, 10, 9, 5, 3];
    let rows = [
        (None, Some(30)),
        (None, Some(40)),
        (Some(20), Some(20)),
        (Some(25), Some(25)),
        (Some(15), Some(15)),
    ];
    let matrix = [
        1, 1, 1, 0, 0, 0, 0, 0, 0, 1, 1, 1, 1, 0, 0, 1, 0, 0, 0, 1, 0, 0, 1, 0, 0, 0, 1, 0, 0, 1,
    ];
    let sides = from_zero(alloc, 25, 6)?;
    let transport = problem(alloc, sides, &costs, &[], &rows, &matrix)?;
    assert_eq!(rt; bound_at_best(&rt, alloc, transport)?, 330);
    Ok(())
}

/// The example of Beale, on which the simplex with the plain choice of pivots goes
/// round for ever.
#[test]
fn ends_where_a_plain_choice_goes_round(rt: HostRuntime) -> Result<(), Fail> {
    let alloc = rt.alloc();
    let costs = [-75, 15000, -2, 600];
    let rows = [(None, Some(0)), (None, Some(0)), (None, Some(1))];
    let matrix = [25, -6000, -4, 900, 50, -9000, -2, 300, 0, 0, 1, 0];
    let sides = from_zero(alloc, 1000, 4)?;
    let given = problem(alloc, sides, &costs, &[], &rows, &matrix)?;
    assert_eq!(rt; bound_at_best(&rt, alloc, given)?, -5);
    Ok(())
}

/// Of the first three columns at most one is to be 1, but of all four three.
#[test]
fn lifts_the_bound_along_a_ray(rt: HostRuntime) -> Result<(), Fail> {
    let alloc = rt.alloc();
    let rows = [(Some(6), None), (None, Some(3))];
    let matrix = [2, 2, 2, 2, 3, 3, 3, 0];
    let given = problem(
        alloc,
        from_zero(alloc, 1, 4)?,
        &[3, 4, 5, 6],
        &[],
        &rows,
        &matrix,
    )?;
    let problem = given.expect(&rt, "a problem");
    let sides = problem.columns.as_slice();
    let mut simplex = Simplex::new(alloc, &problem, sides, &[], 1000)?;
    let stop = simplex.improve(&problem, sides, 1000);
    let once = bound_on_ray(alloc, &simplex, &problem, sides, stop, 1)?;
    let often = bound_on_ray(alloc, &simplex, &problem, sides, stop, 1_000_000)?;
    let once = once.expect(&rt, "a ray");
    let often = often.expect(&rt, "a ray");
    assert!(rt; once > 0 && often > 1_000_000);
    Ok(())
}

/// A table of two rows and two columns counts as one of three and three.
#[test]
fn refuses_a_table_that_is_too_great(rt: HostRuntime) -> Result<(), Fail> {
    let alloc = rt.alloc();
    let rows = [(Some(1), None), (Some(1), None)];
    let given = problem(
        alloc,
        from_zero(alloc, 1, 2)?,
        &[1, 1],
        &[],
        &rows,
        &[1, 1, 1, 1],
    )?;
    let problem = given.expect(&rt, "a problem");
    let sides = problem.columns.as_slice();
    assert!(rt; Simplex::new(alloc, &problem, sides, &[], 8)?.is_idle());
    assert!(rt; !Simplex::new(alloc, &problem, sides, &[], 9)?.is_idle());
    Ok(())
}

/// The least value over the whole points is 20, at 5 and 2.
#[test]
fn cuts_squares_round_a_centre(rt: HostRuntime) -> Result<(), Fail> {
    let alloc = rt.alloc();
    let mut ends = List::new(alloc);
    for _ in 0..2 {
        ends.push(Side {
            lower: -10,
            upper: 10,
        })?;
    }
    let given = problem(alloc, ends, &[-3, 1], &[1, 2], &[(Some(7), None)], &[1, 1])?;
    let problem = given.expect(&rt, "a problem");
    let sides = problem.columns.as_slice();
    let mut point = vec![in alloc; 0i64; sides.len()]?;
    let mut known = 0usize;
    let mut bound = 0;
    for _ in 0..3 {
        let centres = point.get(..known).unwrap_or(&[]);
        let mut simplex = Simplex::new(alloc, &problem, sides, centres, 1000)?;
        let stop = simplex.improve(&problem, sides, 1000);
        assert!(rt; matches!(stop, Stop::Optimal));
        bound = bound_of(alloc, &simplex, &problem, sides)?;
        simplex.write_point(sides, point.as_mut_slice());
        known = 2;
    }
    assert_eq!(rt; point.as_slice(), [5, 2].as_slice());
    assert_eq!(rt; bound, 20);
    Ok(())
}
