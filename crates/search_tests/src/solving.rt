use crate::problems::{Row, problem, small, tied};
use boxed_problem::{Best, Boxed, scan};
use branch_bound::{SolveFault, solve, solve_from};
use std::alloc::{AllocError, Global};
use std::process::Abort;
use std::test::Fail;
use wide_num::List;

#[test]
fn counts_boxes_of_small(rt: HostRuntime) -> Result<(), Fail> {
    for (need, x, value, few) in [(2, 2, 20, 13), (6, 6, 60, 21)] {
        let problem = small(&rt, rt.alloc(), need)?;
        let best = solve(rt.alloc(), &problem, few)?;
        assert_eq!(rt; best.value, value);
        assert_eq!(rt; best.point.as_slice(), [x, 0].as_slice());
        let fault = solve(rt.alloc(), &problem, 1).err();
        assert_eq!(rt; fault, Some(SolveFault::Spent { opened: 1 }));
        let none = solve(rt.alloc(), &problem, 0).err();
        assert_eq!(rt; none, Some(SolveFault::Spent { opened: 0 }));
        let off = List::from_slice(rt.alloc(), &[11, 0])?;
        let fault = solve_from(rt.alloc(), &problem, &off, 1).err();
        assert_eq!(rt; fault, Some(SolveFault::Spent { opened: 1 }));
        let least = List::from_slice(rt.alloc(), &[x, 0])?;
        let best = solve_from(rt.alloc(), &problem, &least, few)?;
        assert_eq!(rt; best.point.as_slice(), [x, 0].as_slice());
    }
    let far = small(&rt, rt.alloc(), 21)?;
    assert_eq!(rt;
        solve(rt.alloc(), &far, 1).err(),
        Some(SolveFault::Infeasible)
    );
    Ok(())
}

/// The problem of two columns with these ends and these linear and square
/// parts, over rows that each hold the first column plus `by` times the second.
fn crossed(
    alloc: Global,
    columns: [(i64, i64); 2],
    objective: [(i128, i128); 2],
    by: i128,
    rows: &[Row],
) -> Result<Option<Boxed>, AllocError> {
    let count = u32::try_from(rows.len()).unwrap_or(0);
    let mut entries = List::new(alloc);
    for (column, value) in [(0, 1), (1, by)] {
        for row in 0..count {
            entries.push((row, column, value))?;
        }
    }
    problem(alloc, &columns, rows, entries.as_slice(), 0, &objective)
}

/// What a farmer buys and sells after a harvest: wheat, corn and beets of three
/// fields, with so many tenths of a ton, and tons of beets, for each acre.
fn farm(alloc: Global, wheat: i128, corn: i128, beets: i128) -> Result<Option<Boxed>, AllocError> {
    let much = (0, 10_000);
    let columns = [
        (170, 170),
        (80, 80),
        (250, 250),
        much,
        much,
        much,
        much,
        (0, 6_000),
        much,
    ];
    let objective = [
        (150, 0),
        (230, 0),
        (260, 0),
        (238, 0),
        (210, 0),
        (-170, 0),
        (-150, 0),
        (-36, 0),
        (-10, 0),
    ];
    let rows = [
        (None, Some(500)),
        (Some(2_000), None),
        (Some(2_400), None),
        (Some(0), None),
    ];
    let entries = [
        (0, 0, 1),
        (1, 0, wheat),
        (0, 1, 1),
        (2, 1, corn),
        (0, 2, 1),
        (3, 2, beets),
        (1, 3, 10),
        (2, 4, 10),
        (1, 5, -10),
        (2, 6, -10),
        (3, 7, -1),
        (3, 8, -1),
    ];
    problem(alloc, &columns, &rows, &entries, 0, &objective)
}

#[test]
fn needs_few_boxes_for_the_farm(rt: HostRuntime) -> Result<(), Fail> {
    let harvests = [
        (30, 36, 24, -167_000),
        (25, 30, 20, -109_350),
        (20, 24, 16, -48_820),
    ];
    for (wheat, corn, beets, value) in harvests {
        let found = farm(rt.alloc(), wheat, corn, beets)?;
        let problem = found.expect(&rt, "a problem");
        let best = solve(rt.alloc(), &problem, 1000)?;
        assert_eq!(rt; best.value, value);
        let fault = solve(rt.alloc(), &problem, 1).err();
        assert_eq!(rt; fault, Some(SolveFault::Spent { opened: 1 }));
        let again = solve_from(rt.alloc(), &problem, &best.point, 1)?;
        assert_eq!(rt; again.point.as_slice(), best.point.as_slice());
    }
    Ok(())
}

/// Whether an answer is the point that the list of all points gives, or that
/// there is none.
fn is_listed(listed: &Option<Best>, found: Result<Best, SolveFault>) -> bool {
    match found {
        Ok(best) => *listed == Some(best),
        Err(SolveFault::Infeasible) => listed.is_none(),
        Err(_) => false,
    }
}

/// Whether the search that begins with a point gives the listed answer.
fn agrees_from(
    alloc: Global,
    problem: &Boxed,
    listed: &Option<Best>,
    start: &[i64],
) -> Result<bool, AllocError> {
    let point = List::from_slice(alloc, start)?;
    let found = solve_from(alloc, problem, &point, 10000);
    Ok(is_listed(listed, found))
}

/// Whether the search and the list of all points give the same answer, also
/// where the search begins with the least point, with others on and off the box,
/// feasible or not, or with points of the wrong length.
fn agrees(alloc: Global, problem: &Boxed) -> Result<bool, AllocError> {
    if !problem.has_few_points() {
        return Ok(false);
    }
    let listed = scan(alloc, problem)?;
    if !is_listed(&listed, solve(alloc, problem, 10000)) {
        return Ok(false);
    }
    if let Some(best) = &listed {
        if !agrees_from(alloc, problem, &listed, best.point.as_slice())? {
            return Ok(false);
        }
    }
    for (first, second) in [(0, 0), (1, -1), (3, 2), (5, -4), (9, 9)] {
        if !agrees_from(alloc, problem, &listed, &[first, second])? {
            return Ok(false);
        }
    }
    Ok(
        agrees_from(alloc, problem, &listed, &[])?
            && agrees_from(alloc, problem, &listed, &[0, 0, 0])?,
    )
}

#[test]
fn takes_the_first_of_equals(rt: HostRuntime) -> Result<(), Fail> {
    let tied = tied(&rt, rt.alloc())?;
    assert!(rt; agrees(rt.alloc(), &tied)?);
    let last = List::from_slice(rt.alloc(), &[1, 0])?;
    let best = solve_from(rt.alloc(), &tied, &last, 100)?;
    assert_eq!(rt; best.point.as_slice(), [0, 1].as_slice());
    Ok(())
}

#[test]
fn agrees_with_the_list_of_points(rt: HostRuntime) -> Result<(), Fail> {
    let boxes = [
        [(0, 3), (-2, 2)],
        [(-3, -1), (0, 0)],
        [(5, 5), (-4, 4)],
        [(-2, 3), (-2, 3)],
        [(1, 1), (-1, -1)],
    ];
    let objectives = [
        [(1, 0), (1, 0)],
        [(-3, 2), (4, 0)],
        [(0, 1), (-5, 3)],
        [(0, 0), (-1, 0)],
        [(2, 0), (2, 0)],
        [(-7, 1), (3, 2)],
    ];
    let limits = [
        [(None, None), (None, None)],
        [(Some(1), None), (None, Some(3))],
        [(Some(-1), Some(1)), (Some(-2), None)],
        [(Some(2), Some(2)), (None, None)],
        [(Some(90), None), (None, None)],
        [(None, Some(-3)), (Some(-9), Some(4))],
        [(Some(0), Some(0)), (Some(0), None)],
    ];
    for columns in boxes {
        for objective in objectives {
            for rows in limits {
                let found = crossed(rt.alloc(), columns, objective, -2, &rows)?;
                let problem = found.expect(&rt, "a problem");
                assert!(rt;
                    agrees(rt.alloc(), &problem)?,
                    "{columns:?} {objective:?} {rows:?}"
                );
            }
        }
    }
    Ok(())
}

#[test]
fn needs_no_columns_and_no_rows(rt: HostRuntime) -> Result<(), Fail> {
    let alloc = rt.alloc();
    for (lower, feasible) in [(0, true), (1, false)] {
        let found = problem(alloc, &[], &[(Some(lower), None)], &[], 7, &[])?;
        let problem = found.expect(&rt, "a problem");
        assert_eq!(rt; solve(alloc, &problem, 1).is_ok(), feasible);
        assert!(rt; agrees(alloc, &problem)?);
    }
    let free = crossed(alloc, [(-2, 2), (1, 4)], [(-1, 1), (2, 0)], 1, &[])?;
    assert!(rt; agrees(alloc, &free.expect(&rt, "a problem"))?);
    Ok(())
}

#[test]
fn reaches_the_greatest_numbers(rt: HostRuntime) -> Result<(), Fail> {
    let most = 1 << 122;
    let half = 1 << 121;
    let cases = [
        (half, half, -most, 1, -most),
        (half, half - 1, -most, 0, 0),
        (-half, -half, most, 1, most),
        (-half, half, most, 0, 0),
    ];
    for (entry, upper, linear, x, value) in cases {
        let found = problem(
            rt.alloc(),
            &[(0, 1)],
            &[(None, Some(upper))],
            &[(0, 0, entry)],
            0,
            &[(linear, 0)],
        )?;
        let best = solve(rt.alloc(), &found.expect(&rt, "a problem"), 10)?;
        assert_eq!(rt; best.value, value, "at {entry} {upper}");
        assert_eq!(rt; best.point.as_slice(), [x].as_slice(), "at {entry} {upper}");
    }
    Ok(())
}
