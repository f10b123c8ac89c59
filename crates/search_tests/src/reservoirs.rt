use crate::problems::problem;
use boxed_problem::Boxed;
use branch_bound::{solve, solve_from};
use std::alloc::{AllocError, Global};
use std::test::Fail;
use wide_num::List;

/// Two periods of a water plant with a reservoir, into which so much flows in the
/// second one: how many turbines of another plant are built, and then for each
/// period what water is stored, released and spilt, and what the other plant makes
/// and what is bought.
fn plant(alloc: Global, inflow: i128) -> Result<Option<Boxed>, AllocError> {
    let columns = [
        (0, 3),
        (0, 53),
        (0, 15),
        (0, 255),
        (0, 12),
        (0, 255),
        (0, 53),
        (0, 15),
        (0, 255),
        (0, 36),
        (0, 255),
    ];
    let objective = [
        (576, 0),
        (0, 0),
        (0, 0),
        (1, 0),
        (35, 0),
        (200, 0),
        (-8, 0),
        (0, 0),
        (1, 0),
        (35, 0),
        (200, 0),
    ];
    let rows = [
        (Some(25), Some(25)),
        (Some(25), None),
        (Some(inflow), Some(inflow)),
        (Some(30), None),
        (None, Some(12)),
    ];
    let entries = [
        (4, 0, -8),
        (0, 1, 1),
        (2, 1, -1),
        (0, 2, 1),
        (1, 2, 1),
        (0, 3, 1),
        (1, 4, 1),
        (1, 5, 1),
        (2, 6, 1),
        (2, 7, 1),
        (3, 7, 1),
        (2, 8, 1),
        (3, 9, 1),
        (4, 9, 1),
        (3, 10, 1),
    ];
    problem(alloc, &columns, &rows, &entries, 0, &objective)
}

#[test]
fn plans_a_plant(rt: HostRuntime) -> Result<(), Fail> {
    for (inflow, stored, kept, value) in [(9, 4, 34, 1338), (12, 7, 37, 1314)] {
        let made = plant(rt.alloc(), inflow)?;
        let problem = made.expect(&rt, "a problem");
        let wanted = [0, 10, 15, 0, 10, 0, stored, 15, 0, 12, 3];
        let best = solve(rt.alloc(), &problem, 1000)?;
        assert_eq!(rt; best.value, value);
        assert_eq!(rt; best.point.as_slice(), wanted.as_slice());
        let dear = [0, 25, 0, 0, 0, 25, kept, 0, 0, 0, 30];
        let start = List::from_slice(rt.alloc(), &dear)?;
        assert!(rt; problem.feasible(&start));
        let found = solve_from(rt.alloc(), &problem, &start, 1000)?;
        assert_eq!(rt; found.point.as_slice(), wanted.as_slice());
    }
    Ok(())
}
