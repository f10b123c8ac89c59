use crate::joined_runs::{joined, options};
use crate::texts::{STAGES_CORE, STAGES_STOCH, STAGES_TIME};
use run_calls::{balanced, sized};
use sample_files::{SMALL_CORE, SMALL_STOCH, SMALL_TIME};
use sp_model::{Multipliers, Run};
use std::alloc::{AllocError, Global};
use std::test::Fail;
use wide_num::List;

// What the tests say of multipliers, as text: that of sizes, and behind it that of sums.
pub fn tests_text(
    alloc: Global,
    run: &Run,
    multipliers: &Multipliers,
) -> Result<String, AllocError> {
    if multipliers.values.len() != run.program.scenarios.len() * run.nonleaf as usize {
        return format!(in alloc; "other lengths");
    }
    match sized(run, multipliers) {
        Ok(()) => format!(in alloc; "sized {:?}", balanced(run, multipliers)),
        Err(fault) => format!(in alloc; "{fault:?}"),
    }
}

#[test]
fn multipliers_of_two(rt: HostRuntime) -> Result<(), Fail> {
    let alloc = rt.alloc();
    let Some(run) = joined(
        alloc,
        (SMALL_CORE, SMALL_TIME, SMALL_STOCH),
        &options(2, 1, 0, 1000000),
    ) else {
        return Err(AllocError.into());
    };
    for (low, high, told) in [
        (-404, 404, "sized Ok(())"),
        (
            -9,
            10,
            "sized Err(Unbalanced { node: 0, column: 0, sum: 1 })",
        ),
        (
            405,
            406,
            "TooBig { scenario: 0, column: 0, value: 405, most: 404 }",
        ),
        (
            404,
            -405,
            "TooBig { scenario: 1, column: 0, value: -405, most: 404 }",
        ),
    ] {
        let multipliers = Multipliers {
            values: List::from_vec(vec![in alloc; low, high]?),
        };
        assert_eq!(rt; tests_text(alloc, &run, &multipliers)?.as_str(), told);
    }
    Ok(())
}

// The multipliers of three scenarios and two nonleaf columns.
pub fn three(
    alloc: Global,
    first: (i128, i128),
    second: (i128, i128),
    third: (i128, i128),
) -> Result<Multipliers, AllocError> {
    let values = vec![in alloc; first.0, first.1, second.0, second.1, third.0, third.1]?;
    Ok(Multipliers {
        values: List::from_vec(values),
    })
}

#[test]
fn multipliers_of_three_stages(rt: HostRuntime) -> Result<(), Fail> {
    let alloc = rt.alloc();
    let Some(run) = joined(
        alloc,
        (STAGES_CORE, STAGES_TIME, STAGES_STOCH),
        &options(4, 1, 0, 1000000),
    ) else {
        return Err(AllocError.into());
    };
    for (first, second, third, told) in [
        ((1, 2), (2, -2), (-3, 0), "sized Ok(())"),
        ((2404, 0), (-2404, 0), (0, 0), "sized Ok(())"),
        (
            (1, 2),
            (2, -1),
            (-2, 5),
            "sized Err(Unbalanced { node: 0, column: 0, sum: 1 })",
        ),
        (
            (1, 2),
            (2, -1),
            (-3, 5),
            "sized Err(Unbalanced { node: 1, column: 1, sum: 1 })",
        ),
        (
            (1, 2),
            (2, -2),
            (-3, 5),
            "sized Err(Unbalanced { node: 2, column: 1, sum: 5 })",
        ),
        (
            (0, 2407),
            (2407, 0),
            (0, 0),
            "TooBig { scenario: 0, column: 1, value: 2407, most: 2406 }",
        ),
        (
            (0, 0),
            (0, -2407),
            (2407, 0),
            "TooBig { scenario: 1, column: 1, value: -2407, most: 2406 }",
        ),
    ] {
        let multipliers = three(alloc, first, second, third)?;
        assert_eq!(rt; tests_text(alloc, &run, &multipliers)?.as_str(), told);
    }
    Ok(())
}
