use crate::problems::{check_fit, prices, problem, sides_of, small};
use boxed_problem::{Boxed, Prices, Side};
use row_prices::improve;
use safe_bound::bound;
use std::alloc::AllocError;
use std::process::Abort;
use std::test::Fail;
use wide_num::List;

/// Improves a single price over sides, and checks the bound that it gives then.
fn check(
    rt: &impl Abort,
    problem: &Boxed,
    sides: &List<Side>,
    prices: &mut Prices,
    rounds: u32,
    wanted: i128,
) -> Result<(), AllocError> {
    check_fit(rt, problem, sides, prices);
    improve(problem, sides, prices, rounds)?;
    assert_eq!(rt; bound(problem, sides, prices), wanted);
    Ok(())
}

#[test]
fn improves_small(rt: HostRuntime) -> Result<(), Fail> {
    let alloc = rt.alloc();
    let small = small(&rt, alloc, 6)?;
    let part = sides_of(alloc, &[(0, 4), (0, 10)])?;
    for (scale, price, rounds, whole, narrow) in [
        (1, 10, 1, 60, 100),
        (1, 0, 0, 0, 60),
        (16, 0, 1, 60, 100),
        (1, 500, 3, 60, 100),
    ] {
        let mut prices = prices(alloc, scale, &[price])?;
        check(&rt, &small, &small.columns, &mut prices, rounds, whole)?;
        if rounds > 0 {
            check(&rt, &small, &part, &mut prices, rounds, narrow)?;
        }
    }
    Ok(())
}

#[test]
fn improves_upper_and_equal(rt: HostRuntime) -> Result<(), Fail> {
    let alloc = rt.alloc();
    for (scale, wanted) in [(1, -22), (8, -21)] {
        let made = problem(
            alloc,
            &[(0, 10), (0, 10)],
            &[(None, Some(4))],
            &[(0, 0, 1), (0, 1, 2)],
            0,
            &[(-7, 1), (-12, 1)],
        )?;
        let upper = made.expect(&rt, "a problem");
        let mut prices = prices(alloc, scale, &[0])?;
        check(&rt, &upper, &upper.columns, &mut prices, 1, wanted)?;
    }
    let made = problem(
        alloc,
        &[(-3, 3), (-3, 3)],
        &[(Some(2), Some(2))],
        &[(0, 0, 3), (0, 1, -2)],
        1,
        &[(4, 2), (-1, 3)],
    )?;
    let equal = made.expect(&rt, "a problem");
    check(
        &rt,
        &equal,
        &equal.columns,
        &mut prices(alloc, 8, &[-9])?,
        1,
        5,
    )?;
    Ok(())
}

#[test]
fn improves_several_rows(rt: HostRuntime) -> Result<(), Fail> {
    let alloc = rt.alloc();
    let made = problem(
        alloc,
        &[(0, 10), (0, 10), (0, 10)],
        &[
            (Some(3), None),
            (None, Some(2)),
            (Some(4), Some(4)),
            (None, None),
        ],
        &[(0, 0, 1), (3, 0, 5), (1, 1, 1), (2, 2, 2), (3, 2, 1)],
        0,
        &[(5, 0), (-4, 0), (6, 0)],
    )?;
    let several = made.expect(&rt, "a problem");
    for values in [[0, 0, 0, 0], [9, -9, -5, 0]] {
        let mut prices = prices(alloc, 1, &values)?;
        check(&rt, &several, &several.columns, &mut prices, 1, 19)?;
        assert_eq!(rt; prices.values.as_slice(), [5, -4, 3, 0].as_slice());
    }
    Ok(())
}
