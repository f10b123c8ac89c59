ghost use Rattle.std.specs.Prelude.{◌≡◌, ◌<◌, length, IsTrue};
ghost use Rattle.plan_calls.specs.PlanTests.{ArePoints};
ghost use Rattle.sp_model.specs.Plans.{point_of};

use crate::joined_runs::{joined, options};
use crate::texts::{CELL_STOCH, STAGES_CORE, STAGES_STOCH, STAGES_TIME};
use plan_calls::{cost, is_plan};
use sample_files::{SMALL_CORE, SMALL_STOCH, SMALL_TIME};
use sp_model::{Plan, Run};
use std::alloc::{AllocError, Global};
use std::test::Fail;
use wide_num::List;

// Whether the point of a scenario has a value for each column.
fn is_whole(run: &Run, plan: &Plan, scenario: usize) -> bool
    requires { scenario < length plan.now.points }
    ensures { IsTrue result
        → length (point_of plan.now scenario) ≡ length run.now.program.columns }
{
    plan.points.as_slice()[scenario].len() == run.program.columns.len()
}

// Whether there is a point for each scenario, with a value for each column.
#[tactic(auto, using(crate::proofs::PointLists::all_whole))]
fn are_points(run: &Run, plan: &Plan) -> bool
    ensures { IsTrue result → ArePoints run.now plan.now }
{
    if plan.points.len() != run.program.scenarios.len() {
        return false;
    }
    for s in 0..plan.points.len() {
        if !is_whole(run, plan, s) {
            return false;
        }
    }
    true
}

// What a plan costs, or the first place where points are none, as text.
pub fn plan_text(alloc: Global, run: &Run, plan: &Plan) -> Result<String, AllocError> {
    if !are_points(run, plan) {
        return format!(in alloc; "other lengths");
    }
    match is_plan(run, plan) {
        Ok(()) => format!(in alloc; "cost {}", cost(run, plan)),
        Err(failure) => format!(in alloc; "{failure:?}"),
    }
}

// Two points of two columns.
fn pair(alloc: Global, first: (i64, i64), second: (i64, i64)) -> Result<Plan, AllocError> {
    let first = List::from_vec(vec![in alloc; first.0, first.1]?);
    let second = List::from_vec(vec![in alloc; second.0, second.1]?);
    Ok(Plan {
        points: List::from_vec(vec![in alloc; first, second]?),
    })
}

#[test]
fn pairs(rt: HostRuntime) -> Result<(), Fail> {
    let alloc = rt.alloc();
    for (stoch, first, second, told) in [
        (SMALL_STOCH, (6, 0), (6, 0), "cost 120"),
        (SMALL_STOCH, (2, 0), (2, 4), "cost 160"),
        (SMALL_STOCH, (0, 6), (0, 6), "cost 360"),
        (
            SMALL_STOCH,
            (6, -1),
            (6, 0),
            "Outside { scenario: 0, column: 1, value: -1 }",
        ),
        (
            SMALL_STOCH,
            (-1, 11),
            (6, 0),
            "Outside { scenario: 0, column: 0, value: -1 }",
        ),
        (
            SMALL_STOCH,
            (1, 0),
            (11, 0),
            "Row { scenario: 0, row: 0, activity: 1 }",
        ),
        (
            SMALL_STOCH,
            (6, 0),
            (5, 11),
            "Outside { scenario: 1, column: 1, value: 11 }",
        ),
        (
            SMALL_STOCH,
            (6, 0),
            (7, -1),
            "Outside { scenario: 1, column: 1, value: -1 }",
        ),
        (
            SMALL_STOCH,
            (0, 5),
            (1, 4),
            "Row { scenario: 1, row: 0, activity: 5 }",
        ),
        (
            SMALL_STOCH,
            (6, 0),
            (7, 0),
            "Split { node: 0, column: 0, first: 6, other: 7 }",
        ),
        (CELL_STOCH, (2, 0), (2, 2), "cost 120"),
        (
            CELL_STOCH,
            (2, 0),
            (2, 1),
            "Row { scenario: 1, row: 0, activity: 4 }",
        ),
    ] {
        let Some(run) = joined(
            alloc,
            (SMALL_CORE, SMALL_TIME, stoch),
            &options(2, 1, 0, 1000000),
        ) else {
            return Err(AllocError.into());
        };
        let plan = pair(alloc, first, second)?;
        assert_eq!(rt; plan_text(alloc, &run, &plan)?.as_str(), told);
    }
    Ok(())
}

// A point of three columns.
pub fn triple(alloc: Global, values: (i64, i64, i64)) -> Result<List<i64>, AllocError> {
    let values = vec![in alloc; values.0, values.1, values.2]?;
    Ok(List::from_vec(values))
}

#[test]
fn stages(rt: HostRuntime) -> Result<(), Fail> {
    let alloc = rt.alloc();
    let Some(run) = joined(
        alloc,
        (STAGES_CORE, STAGES_TIME, STAGES_STOCH),
        &options(4, 1, 0, 1000000),
    ) else {
        return Err(AllocError.into());
    };
    for (first, second, third, told) in [
        ((4, 0, 0), (4, 0, 4), (4, 1, 0), "cost 4000"),
        ((4, 0, 0), (4, 0, 4), (4, 2, 0), "cost 4400"),
        (
            (1, 0, 0),
            (4, 0, 4),
            (4, 1, 0),
            "Row { scenario: 0, row: 0, activity: 1 }",
        ),
        (
            (4, 0, 0),
            (4, 0, 3),
            (4, 1, 0),
            "Row { scenario: 1, row: 1, activity: 7 }",
        ),
        (
            (4, 0, 0),
            (4, 0, 10),
            (3, 0, 0),
            "Outside { scenario: 1, column: 2, value: 10 }",
        ),
        (
            (4, 0, 0),
            (4, 1, 4),
            (4, 1, 0),
            "Split { node: 1, column: 1, first: 0, other: 1 }",
        ),
        (
            (4, 0, 0),
            (4, 1, 4),
            (5, 0, 0),
            "Split { node: 0, column: 0, first: 4, other: 5 }",
        ),
        (
            (4, 0, 0),
            (6, 0, 2),
            (5, 0, 0),
            "Split { node: 0, column: 0, first: 4, other: 6 }",
        ),
        (
            (4, 0, 0),
            (4, 0, 4),
            (5, 0, 0),
            "Split { node: 0, column: 0, first: 4, other: 5 }",
        ),
    ] {
        let first = triple(alloc, first)?;
        let second = triple(alloc, second)?;
        let third = triple(alloc, third)?;
        let plan = Plan {
            points: List::from_vec(vec![in alloc; first, second, third]?),
        };
        assert_eq!(rt; plan_text(alloc, &run, &plan)?.as_str(), told);
    }
    Ok(())
}
