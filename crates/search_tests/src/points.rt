use crate::problems::{prices, problem, small, tied};
use boxed_problem::scan;
use std::alloc::{AllocError, Global};
use std::process::Abort;
use std::test::Fail;
use wide_num::List;

/// A point.
fn point_of(alloc: Global, values: &[i64]) -> Result<List<i64>, AllocError> {
    Ok(List::from_vec(Vec::from_slice(alloc, values)?))
}

#[test]
fn scans_small(rt: HostRuntime) -> Result<(), Fail> {
    for (need, x, y, value) in [
        (2, 2, 0, 20),
        (6, 6, 0, 60),
        (-7, 0, 0, 0),
        (15, 10, 5, 250),
    ] {
        let problem = small(&rt, rt.alloc(), need)?;
        assert!(rt; problem.has_few_points());
        let best = scan(rt.alloc(), &problem)?.expect(&rt, "a point");
        assert_eq!(rt; best.value, value, "at {need}");
        assert_eq!(rt; best.point.as_slice(), [x, y].as_slice(), "at {need}");
        assert!(rt; problem.feasible(&best.point));
        assert_eq!(rt; problem.value(&best.point), value);
    }
    let far = small(&rt, rt.alloc(), 21)?;
    assert!(rt; far.has_few_points());
    assert!(rt; scan(rt.alloc(), &far)?.is_none());
    Ok(())
}

#[test]
fn takes_the_first_of_equals(rt: HostRuntime) -> Result<(), Fail> {
    let tied = tied(&rt, rt.alloc())?;
    assert!(rt; tied.has_few_points());
    let best = scan(rt.alloc(), &tied)?.expect(&rt, "a point");
    assert_eq!(rt; best.value, 1);
    assert_eq!(rt; best.point.as_slice(), [0, 1].as_slice());
    let empty = problem(rt.alloc(), &[], &[], &[], 7, &[])?.expect(&rt, "a problem");
    assert!(rt; empty.has_few_points());
    let only = scan(rt.alloc(), &empty)?.expect(&rt, "a point");
    assert_eq!(rt; (only.value, only.point.len()), (7, 0));
    Ok(())
}

#[test]
fn tests_points(rt: HostRuntime) -> Result<(), Fail> {
    let problem = small(&rt, rt.alloc(), 6)?;
    let cases = [
        ([6, 0], true),
        ([0, 10], true),
        ([5, 0], false),
        ([11, 0], false),
        ([7, -1], false),
    ];
    for (values, wanted) in cases {
        let point = point_of(rt.alloc(), &values)?;
        assert_eq!(rt; problem.feasible(&point), wanted, "at {values:?}");
    }
    let short = point_of(rt.alloc(), &[6])?;
    let long = point_of(rt.alloc(), &[6, 0, 0])?;
    assert!(rt; !problem.feasible(&short) && !problem.feasible(&long));
    Ok(())
}

#[test]
fn fixes_a_column(rt: HostRuntime) -> Result<(), Fail> {
    let mut problem = small(&rt, rt.alloc(), 6)?;
    assert_eq!(rt; problem.columns.len(), 2);
    assert!(rt; !problem.fix(0, 11) && !problem.fix(0, -1));
    assert!(rt; problem.fix(0, 3));
    assert!(rt; problem.has_few_points());
    let best = scan(rt.alloc(), &problem)?.expect(&rt, "a point");
    assert_eq!(rt; best.value, 120);
    Ok(())
}

#[test]
fn fits_prices(rt: HostRuntime) -> Result<(), Fail> {
    let problem = small(&rt, rt.alloc(), 6)?;
    let cases = [
        (1, 10, true),
        (1, 0, true),
        (1, -1, false),
        (0, 10, false),
        (1 << 125, 10, false),
        (1, i128::MAX, false),
        (1, i128::MIN, false),
        (i128::MIN, 0, false),
    ];
    for (scale, price, wanted) in cases {
        let prices = prices(rt.alloc(), scale, &[price])?;
        assert_eq!(rt; problem.fits(&prices), wanted, "at {scale}, {price}");
    }
    assert!(rt; !problem.fits(&prices(rt.alloc(), 1, &[])?));
    Ok(())
}

#[test]
fn refuses_parts(rt: HostRuntime) -> Result<(), Fail> {
    let most = 1 << 122;
    let cases = [
        ((0, 9), Some(3), (0, 0, 2), 0, 0, true),
        ((1, 0), Some(3), (0, 0, 2), 0, 0, false),
        ((0, 9), Some(3), (0, 0, 2), 0, -1, false),
        ((0, 9), Some(3), (1, 0, 2), 0, 0, false),
        ((0, 9), Some(3), (0, 1, 2), 0, 0, false),
        ((0, 9), Some(3), (0, 0, 2), most - 9, 0, true),
        ((0, 9), Some(3), (0, 0, 2), most - 8, 0, false),
        ((0, 9), Some(-most), (0, 0, 0), 0, 0, true),
        ((0, 9), Some(-most), (0, 0, 1), 0, 0, false),
    ];
    for (side, upper, entry, constant, square, wanted) in cases {
        let made = problem(
            rt.alloc(),
            &[side],
            &[(None, upper)],
            &[entry],
            constant,
            &[(1, square)],
        )?;
        assert_eq!(rt;
            made.is_some(),
            wanted,
            "at {side:?} {upper:?} {entry:?} {constant} {square}"
        );
    }
    Ok(())
}

#[test]
fn refuses_unequal_lengths_and_pairs_twice(rt: HostRuntime) -> Result<(), Fail> {
    let short = problem(rt.alloc(), &[(0, 9)], &[], &[], 0, &[])?;
    assert!(rt; short.is_none());
    let rows = [(Some(1), None)];
    let twice = problem(
        rt.alloc(),
        &[(0, 9)],
        &rows,
        &[(0, 0, 2), (0, 0, 2)],
        0,
        &[(1, 0)],
    )?;
    assert!(rt; twice.is_none());
    Ok(())
}
