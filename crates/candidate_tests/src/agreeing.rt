use crate::joined_runs::{joined, options};
use crate::texts::{YEARS_CORE, YEARS_STOCH, YEARS_TIME};
use candidates::{Candidate, agrees};
use sample_files::{SMALL_CORE, SMALL_STOCH, SMALL_TIME};
use sp_model::Run;
use std::alloc::{AllocError, Global};
use std::test::Fail;
use wide_num::List;

// Whether some values agree; no where there isn't one for each scenario and
// nonleaf column.
fn agree(run: &Run, values: Vec<i64>) -> bool {
    let candidate = Candidate {
        values: List::from_vec(values),
    };
    if candidate.values.len() != run.program.scenarios.len() * run.nonleaf as usize {
        return false;
    }
    agrees(run, &candidate)
}

#[test]
fn two_stages(rt: HostRuntime) -> Result<(), Fail> {
    let alloc = rt.alloc();
    let Some(run) = joined(
        alloc,
        (SMALL_CORE, SMALL_TIME, SMALL_STOCH),
        &options(2, 1, 1000000),
    ) else {
        return Err(AllocError.into());
    };
    for (first, second, told) in [(2, 2, true), (2, 6, false), (11, 11, true), (11, -1, false)] {
        let values = vec![in alloc; first, second]?;
        assert_eq!(rt; agree(&run, values), told);
    }
    Ok(())
}

#[test]
fn three_stages(rt: HostRuntime) -> Result<(), Fail> {
    let alloc = rt.alloc();
    let Some(run) = joined(
        alloc,
        (YEARS_CORE, YEARS_TIME, YEARS_STOCH),
        &options(3, 2, 1000000),
    ) else {
        return Err(AllocError.into());
    };
    for (second, third, early, fourth, told) in [
        (2, 3, 0, 3, true),
        (2, 2, 0, 2, true),
        (2, 3, 1, 3, false),
        (2, 3, 0, 4, false),
        (1, 3, 0, 3, false),
        (2, -7, 0, -7, true),
    ] {
        let values = vec![in alloc; 0, 2, 0, second, 0, third, early, fourth]?;
        assert_eq!(rt; agree(&run, values), told);
    }
    Ok(())
}
