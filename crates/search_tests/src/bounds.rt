use crate::problems::{check_fit, prices, problem, sides_of, small};
use boxed_problem::{Boxed, Prices, Side, scan};
use safe_bound::{bound, bound_from, column_least, least_value, price_total, reduce_by};
use std::alloc::{AllocError, Global};
use std::process::Abort;
use std::test::Fail;
use wide_num::List;

/// Checks the bound that prices give over sides, by both ways.
fn check(
    rt: &impl Abort,
    problem: &Boxed,
    sides: &List<Side>,
    prices: &Prices,
    wanted: i128,
) -> Result<(), AllocError> {
    check_fit(rt, problem, sides, prices);
    assert_eq!(rt; bound(problem, sides, prices), wanted);
    let reduced = reduce_by(problem, prices)?;
    assert_eq!(rt; bound_from(&reduced, sides), wanted);
    Ok(())
}

#[test]
fn bounds_small(rt: HostRuntime) -> Result<(), Fail> {
    let problem = small(&rt, rt.alloc(), 6)?;
    let part = sides_of(rt.alloc(), &[(3, 5), (0, 10)])?;
    let cases = [
        (1, 10, 60, 60),
        (1, 0, 0, 30),
        (3, 32, 58, 61),
        (2, 60, -20, 80),
    ];
    for (scale, price, whole, narrow) in cases {
        let prices = prices(rt.alloc(), scale, &[price])?;
        check(&rt, &problem, &problem.columns, &prices, whole)?;
        check(&rt, &problem, &part, &prices, narrow)?;
    }
    Ok(())
}

/// Checks the bound that prices give over the whole box, and that it is at most
/// the least value, which `scan` finds.
fn check_whole(
    rt: &impl Abort,
    alloc: Global,
    made: Option<Boxed>,
    prices: &Prices,
    wanted: i128,
    least: i128,
) -> Result<(), AllocError> {
    let problem = made.expect(rt, "a problem");
    check(rt, &problem, &problem.columns, prices, wanted)?;
    assert!(rt; problem.has_few_points());
    let best = scan(alloc, &problem)?.expect(rt, "a point");
    assert_eq!(rt; best.value, least);
    assert!(rt; wanted <= least);
    Ok(())
}

#[test]
fn bounds_squares_and_both_signs(rt: HostRuntime) -> Result<(), Fail> {
    let alloc = rt.alloc();
    for (scale, first, second, wanted) in [(2, 3, -1, -12), (2, -3, -2, -22)] {
        let made = problem(
            alloc,
            &[(0, 3), (-2, 4)],
            &[(Some(2), Some(5)), (None, Some(1))],
            &[(0, 0, 1), (1, 0, -2), (0, 1, 2), (1, 1, 1)],
            -7,
            &[(-3, 1), (2, 2)],
        )?;
        let prices = prices(alloc, scale, &[first, second])?;
        check_whole(&rt, alloc, made, &prices, wanted, -9)?;
    }
    Ok(())
}

#[test]
fn bounds_three_rows(rt: HostRuntime) -> Result<(), Fail> {
    let alloc = rt.alloc();
    let made = problem(
        alloc,
        &[(-5, 5), (2, 2), (-1, 1)],
        &[(Some(-4), None), (None, Some(3)), (Some(0), Some(0))],
        &[
            (0, 0, 2),
            (2, 0, 1),
            (1, 1, -1),
            (2, 1, 1),
            (0, 2, 3),
            (1, 2, 4),
        ],
        5,
        &[(3, 0), (-4, 0), (1, 3)],
    )?;
    let prices = prices(alloc, 3, &[2, -1, -5])?;
    check_whole(&rt, alloc, made, &prices, -20, -9)?;
    Ok(())
}

#[test]
fn bounds_idle_and_free(rt: HostRuntime) -> Result<(), Fail> {
    let alloc = rt.alloc();
    let idle = problem(
        alloc,
        &[(0, 0), (1, 4)],
        &[(Some(3), Some(3))],
        &[(0, 0, i128::MIN), (0, 1, 1)],
        1,
        &[(i128::MAX, i128::MAX), (-2, 1)],
    )?;
    check_whole(&rt, alloc, idle, &prices(alloc, 4, &[7])?, 3, 4)?;
    let free = problem(
        alloc,
        &[(-5, 5)],
        &[(None, None)],
        &[(0, 0, 3)],
        0,
        &[(0, 1)],
    )?;
    check_whole(&rt, alloc, free, &prices(alloc, 7, &[0])?, 0, 0)?;
    Ok(())
}

#[test]
fn bounds_at_the_limit(rt: HostRuntime) -> Result<(), Fail> {
    let alloc = rt.alloc();
    let most = 1 << 122;
    let made = problem(alloc, &[(-1, 1)], &[], &[], 0, &[(most, 0)])?;
    check_whole(&rt, alloc, made, &prices(alloc, 8, &[])?, -most, -most)?;
    let made = problem(alloc, &[(-1, 1)], &[(None, Some(-most))], &[], 0, &[(0, 0)])?;
    let far = made.expect(&rt, "a problem");
    check(&rt, &far, &far.columns, &prices(alloc, 1, &[-8])?, 8 * most)?;
    Ok(())
}

#[test]
fn finds_leasts(rt: HostRuntime) -> Result<(), Fail> {
    let problem = small(&rt, rt.alloc(), 6)?;
    let part = sides_of(rt.alloc(), &[(3, 5), (2, 10)])?;
    let prices = prices(rt.alloc(), 1, &[10])?;
    check_fit(&rt, &problem, &part, &prices);
    assert_eq!(rt; least_value(&problem, &part), 90);
    assert_eq!(rt; price_total(&problem, &part, &prices), 100);
    for (lower, upper, wanted) in [(-3, 9, -2), (2, 9, 0), (-3, -1, 6), (0, 1, -2)] {
        assert_eq!(rt; column_least(-4, 2, Side { lower, upper }), wanted);
    }
    Ok(())
}
