use crate::empty_stages::empty_stages_between;
use crate::joined_runs::{joined, options};
use crate::multiplying::{tests_text, three};
use crate::plans::{plan_text, triple};
use crate::putting::puts_text;
use crate::texts::{STAGES_CORE, STAGES_STOCH, STAGES_TIME};
use sp_model::{Plan, Run};
use std::alloc::{AllocError, Global};
use std::test::Fail;
use wide_num::List;

// The run of three stages, with no columns in the second.
fn skipping(alloc: Global, rho: i128, iterations: u64) -> Result<Run, AllocError> {
    let Some(mut run) = joined(
        alloc,
        (STAGES_CORE, STAGES_TIME, STAGES_STOCH),
        &options(4, rho, iterations, 1000000),
    ) else {
        return Err(AllocError);
    };
    empty_stages_between(alloc, &mut run)?;
    Ok(run)
}

#[test]
fn puts_without_a_stage(rt: HostRuntime) -> Result<(), Fail> {
    let alloc = rt.alloc();
    let run = skipping(alloc, 3, 3)?;
    assert_eq!(rt;
        puts_text(alloc, &run)?.as_str(),
        "bound 2300; 1 x[3, 0, 6, 2, 5, 0] sum 475 m[-132, -38, 93, 112, 39, -74] dual Ok(2785); 2 x[5, 0, 6, 2, 5, 0] sum 525 m[-151, -76, 149, 224, 2, -148] dual Ok(3046); 3 x[6, 0, 6, 2, 5, 0] sum 550 m[-114, -114, 186, 336, -72, -222] dual Ok(3272); 4 x[6, 0, 6, 0, 5, 0] sum 550 m[-77, -114, 223, 336, -146, -222] dual Ok(3277)"
    );
    Ok(())
}

#[test]
fn multipliers_without_a_stage(rt: HostRuntime) -> Result<(), Fail> {
    let alloc = rt.alloc();
    let run = skipping(alloc, 1, 0)?;
    for (third, told) in [
        ((-3, 0), "sized Ok(())"),
        (
            (-3, 5),
            "sized Err(Unbalanced { node: 0, column: 1, sum: 5 })",
        ),
    ] {
        let multipliers = three(alloc, (1, 2), (2, -2), third)?;
        assert_eq!(rt; tests_text(alloc, &run, &multipliers)?.as_str(), told);
    }
    Ok(())
}

#[test]
fn plans_without_a_stage(rt: HostRuntime) -> Result<(), Fail> {
    let alloc = rt.alloc();
    let run = skipping(alloc, 1, 0)?;
    for (first, second, third, told) in [
        ((4, 1, 0), (4, 1, 3), (4, 1, 0), "cost 3900"),
        (
            (4, 0, 0),
            (4, 0, 4),
            (4, 1, 0),
            "Split { node: 0, column: 1, first: 0, other: 1 }",
        ),
    ] {
        let first = triple(alloc, first)?;
        let second = triple(alloc, second)?;
        let third = triple(alloc, third)?;
        let plan = Plan {
            points: List::from_vec(vec![in alloc; first, second, third]?),
        };
        assert_eq!(rt; plan_text(alloc, &run, &plan)?.as_str(), told);
    }
    Ok(())
}
