use crate::joined_runs::{joined, options};
use crate::texts::{FARM_STOCH, YEARS_CORE, YEARS_STOCH, YEARS_TIME};
use candidates::{Priced, pick, price};
use run_calls::Put;
use sample_files::{FARM_CORE, FARM_TIME, SMALL_CORE, SMALL_STOCH, SMALL_TIME};
use sp_model::{Multipliers, Plan, Run};
use std::alloc::{AllocError, Global};
use std::test::Fail;
use wide_num::List;

// The points of a plan, as text behind another text.
fn points_text(alloc: Global, begun: String, plan: &Plan) -> Result<String, AllocError> {
    let mut text = begun;
    for point in plan.points.as_slice() {
        text = format!(in alloc; "{text} {:?}", point.as_slice())?;
    }
    Ok(text)
}

// The price of the values that each node's first scenario has, and its plan, as
// text.
fn price_text(
    alloc: Global,
    run: &Run,
    values: Vec<i64>,
    budget: u64,
) -> Result<String, AllocError> {
    if values.len() != run.program.scenarios.len() * run.nonleaf as usize {
        return format!(in alloc; "not whole");
    }
    let put = Put {
        number: 1,
        multipliers: Multipliers {
            values: List::new(alloc),
        },
        x: List::from_vec(values),
    };
    let candidate = pick(alloc, run, &put, 0)?;
    match price(alloc, run, &candidate, budget) {
        Ok(Priced { value, plan }) => {
            let begun = format!(in alloc; "{value}")?;
            points_text(alloc, begun, &plan)
        }
        Err(fault) => format!(in alloc; "{fault:?}"),
    }
}

#[test]
fn two_stages(rt: HostRuntime) -> Result<(), Fail> {
    let alloc = rt.alloc();
    let Some(run) = joined(
        alloc,
        (SMALL_CORE, SMALL_TIME, SMALL_STOCH),
        &options(2, 1, 1000000),
    ) else {
        return Err(AllocError.into());
    };
    for (first, second, budget, told) in [
        (0, 0, 1000000, "240 [0, 2] [0, 6]"),
        (2, 2, 1000000, "160 [2, 0] [2, 4]"),
        (6, 6, 1000000, "120 [6, 0] [6, 0]"),
        (2, 6, 1000000, "160 [2, 0] [2, 4]"),
        (11, 11, 1000000, "NoPoint { scenario: 0 }"),
        (-1, -1, 1000000, "NoPoint { scenario: 0 }"),
        (2, 2, 1, "Spent { scenario: 0, opened: 1 }"),
    ] {
        let values = vec![in alloc; first, second]?;
        assert_eq!(rt; price_text(alloc, &run, values, budget)?.as_str(), told);
    }
    Ok(())
}

#[test]
fn three_stages(rt: HostRuntime) -> Result<(), Fail> {
    let alloc = rt.alloc();
    let Some(run) = joined(
        alloc,
        (YEARS_CORE, YEARS_TIME, YEARS_STOCH),
        &options(3, 2, 1000000),
    ) else {
        return Err(AllocError.into());
    };
    for (early, left, right, told) in [
        (0, 2, 2, "495 [0, 2, 0] [0, 2, 5] [0, 2, 0] [0, 2, 0]"),
        (5, 0, 4, "732 [5, 0, 0] [5, 0, 4] [5, 4, 0] [5, 4, 0]"),
        (-2, 4, 1, "630 [-2, 4, 0] [-2, 4, 3] [-2, 1, 0] [-2, 1, 4]"),
        (2, 3, 0, "486 [2, 3, 0] [2, 3, 1] [2, 0, 0] [2, 0, 2]"),
        (-2, 3, 0, "NoPoint { scenario: 0 }"),
        (2, 0, 2, "NoPoint { scenario: 1 }"),
        (0, 4, 5, "NoPoint { scenario: 2 }"),
    ] {
        let values = vec![in alloc; early, left, early, left, early, right, early, right]?;
        assert_eq!(rt; price_text(alloc, &run, values, 1000000)?.as_str(), told);
    }
    Ok(())
}

#[test]
fn planting_plan(rt: HostRuntime) -> Result<(), Fail> {
    let alloc = rt.alloc();
    let Some(run) = joined(
        alloc,
        (FARM_CORE, FARM_TIME, FARM_STOCH),
        &options(1, 1, 10000),
    ) else {
        return Err(AllocError.into());
    };
    let values = vec![in alloc; 170, 80, 250, 170, 80, 250, 170, 80, 250]?;
    assert_eq!(rt;
        price_text(alloc, &run, values, 1000000)?.as_str(),
        "-108389891610 [170, 80, 250, 0, 0, 310, 48, 6000, 0] [170, 80, 250, 0, 0, 225, 0, 5000, 0] [170, 80, 250, 0, 48, 140, 0, 4000, 0]"
    );
    Ok(())
}
