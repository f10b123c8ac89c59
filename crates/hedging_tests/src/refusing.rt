use crate::joined_runs::{joined, options};
use crate::putting::puts_text;
use crate::texts::MUCH_STOCH;
use dual_value::dual;
use run_calls::sized;
use sample_files::{SMALL_CORE, SMALL_STOCH, SMALL_TIME};
use sp_model::{Multipliers, Run};
use std::alloc::{AllocError, Global};
use std::test::Fail;
use wide_num::List;

#[test]
fn puts_refused(rt: HostRuntime) -> Result<(), Fail> {
    let alloc = rt.alloc();
    for (stoch, budget, told) in [
        (MUCH_STOCH, 1000000, "Infeasible { scenario: 1 }"),
        (SMALL_STOCH, 1, "Spent { scenario: 0, opened: 1 }"),
        (SMALL_STOCH, 13, "Spent { scenario: 1, opened: 13 }"),
        (
            SMALL_STOCH,
            21,
            "bound 80; 1 x[2, 6] sum 40 m[-10, 10] dual Ok(120); Spent { scenario: 1, opened: 21 }; 1 x[2, 6] sum 40 m[-10, 10] dual Ok(120)",
        ),
    ] {
        let Some(run) = joined(
            alloc,
            (SMALL_CORE, SMALL_TIME, stoch),
            &options(2, 1, 1, budget),
        ) else {
            return Err(AllocError.into());
        };
        assert_eq!(rt; puts_text(alloc, &run)?.as_str(), told);
    }
    Ok(())
}

// The dual value of multipliers, as text.
fn dual_text(
    alloc: Global,
    run: &Run,
    multipliers: &Multipliers,
    budget: u64,
) -> Result<String, AllocError> {
    if multipliers.values.len() != run.program.scenarios.len() * run.nonleaf as usize {
        return format!(in alloc; "other lengths");
    }
    match sized(run, multipliers) {
        Ok(()) => format!(in alloc; "{:?}", dual(alloc, run, multipliers, budget)),
        Err(fault) => format!(in alloc; "{fault:?}"),
    }
}

#[test]
fn duals(rt: HostRuntime) -> Result<(), Fail> {
    let alloc = rt.alloc();
    for (stoch, values, budget, told) in [
        (SMALL_STOCH, [0, 0].as_slice(), 1000000, "Ok(80)"),
        (SMALL_STOCH, [-15, 15].as_slice(), 1000000, "Ok(100)"),
        (
            MUCH_STOCH,
            [1, 2, -3].as_slice(),
            1000000,
            "Err(NoPoint { scenario: 1 })",
        ),
        (
            SMALL_STOCH,
            [0, 0].as_slice(),
            1,
            "Err(Spent { scenario: 0, opened: 1 })",
        ),
        (
            SMALL_STOCH,
            [0, 0].as_slice(),
            13,
            "Err(Spent { scenario: 1, opened: 13 })",
        ),
    ] {
        let Some(run) = joined(
            alloc,
            (SMALL_CORE, SMALL_TIME, stoch),
            &options(2, 1, 0, 1000000),
        ) else {
            return Err(AllocError.into());
        };
        let multipliers = Multipliers {
            values: List::from_vec(values.to_vec(alloc)?),
        };
        assert_eq!(rt;
            dual_text(alloc, &run, &multipliers, budget)?.as_str(),
            told
        );
    }
    Ok(())
}
