ghost use Rattle.agreement.specs.Agreeing.{AreAgreed};
ghost use Rattle.candidates.specs.Values.{IsWhole};
ghost use Rattle.put_words.specs.NodeSums.{AreInside};

use crate::joined_runs::{joined, options};
use crate::texts::{BELOW_CORE, BELOW_STOCH, YEARS_CORE, YEARS_STOCH, YEARS_TIME};
use candidates::{Candidate, mean, pick, price};
use hedging::first;
use run_calls::Put;
use sample_files::{SMALL_CORE, SMALL_STOCH, SMALL_TIME};
use sp_model::Run;
use std::alloc::{AllocError, Global};
use std::test::Fail;

// The values of a candidate with its price, as text.
fn candidate_text(alloc: Global, run: &Run, candidate: &Candidate) -> Result<String, AllocError>
    requires whole { IsWhole run.now candidate.now }
    requires agreed { AreAgreed run.now candidate.now.values }
{
    let values = candidate.values.as_slice();
    match price(alloc, run, candidate, run.options.budget) {
        Ok(priced) => format!(in alloc; "{values:?} {}", priced.value),
        Err(fault) => format!(in alloc; "{values:?} {fault:?}"),
    }
}

// Some candidates of a put and its mean, as text.
fn candidates_text(alloc: Global, run: &Run, put: &Put) -> Result<String, AllocError>
    requires { AreInside run.now put.now.x }
{
    let mut text = String::new(alloc);
    for number in 0..4 {
        let candidate = pick(alloc, run, put, number)?;
        text = format!(in alloc; "{text}{}; ", candidate_text(alloc, run, &candidate)?)?;
    }
    let middle = mean(alloc, run, put)?;
    format!(in alloc; "{text}mean {}", candidate_text(alloc, run, &middle)?)
}

// The candidates of the first put.
fn first_text(alloc: Global, run: &Run) -> Result<String, AllocError> {
    match first(alloc, run) {
        Ok(hedge) => candidates_text(alloc, run, &hedge.put),
        Err(fault) => format!(in alloc; "{fault:?}"),
    }
}

#[test]
fn first_puts(rt: HostRuntime) -> Result<(), Fail> {
    let alloc = rt.alloc();
    for (core, time, stoch, scale, rho, told) in [
        (
            SMALL_CORE,
            SMALL_TIME,
            SMALL_STOCH,
            2,
            1,
            "[2, 2] 160; [6, 6] 120; [2, 2] 160; [6, 6] 120; mean [4, 4] 140",
        ),
        (
            BELOW_CORE,
            SMALL_TIME,
            BELOW_STOCH,
            2,
            1,
            "[-3, -3] -30; [-2, -2] -40; [-3, -3] -30; [-2, -2] -40; mean [-2, -2] -40",
        ),
        (
            YEARS_CORE,
            YEARS_TIME,
            YEARS_STOCH,
            3,
            2,
            "[1, 1, 1, 1, 1, 0, 1, 0] 735; [1, 4, 1, 4, 1, 3, 1, 3] 375; [-1, 1, -1, 1, -1, 0, -1, 0] NoPoint { scenario: 0 }; [-2, 4, -2, 4, -2, 3, -2, 3] 384; mean [0, 3, 0, 3, 0, 2, 0, 2] 414",
        ),
    ] {
        let Some(run) = joined(alloc, (core, time, stoch), &options(scale, rho, 1000000)) else {
            return Err(AllocError.into());
        };
        assert_eq!(rt; first_text(alloc, &run)?.as_str(), told);
    }
    Ok(())
}
