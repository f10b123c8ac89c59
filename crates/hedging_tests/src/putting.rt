ghost use Rattle.std.specs.Prelude.{◌≡◌, ◌+◌, ◌≤◌, Some};
ghost use Rattle.hedging.specs.Hedges.{made_of};
ghost use Rattle.put_words.specs.Puts.{put_of};

use crate::joined_runs::{joined, options};
use crate::texts::{IDLE_CORE, STAGES_CORE, STAGES_STOCH, STAGES_TIME, THREE_STOCH};
use dual_value::dual;
use hedging::{Hedge, first, next, node_sum};
use sample_files::{SMALL_CORE, SMALL_STOCH, SMALL_TIME};
use sp_model::Run;
use std::alloc::{AllocError, Global};
use std::test::Fail;

// The weighted sum of a put's values in the first column over all scenarios.
fn first_sum(run: &Run, hedge: &Hedge) -> i128
    requires put { put_of run.now hedge.now.put.number ≡ Some (made_of hedge.now) }
{
    if run.nonleaf == 0 || run.program.tree.nodes.len() == 0 {
        return 0;
    }
    node_sum(run, &hedge.put.x, 0, 0)
}

// A put with that sum and its dual value, as text.
fn put_text(alloc: Global, run: &Run, hedge: &Hedge) -> Result<String, AllocError>
    requires put { put_of run.now hedge.now.put.number ≡ Some (made_of hedge.now) }
    requires few { hedge.now.put.number ≤ run.now.options.iterations + 1 }
{
    let put = &hedge.put;
    let value = dual(alloc, run, &put.multipliers, run.options.budget);
    format!(in alloc;
        "{} x{:?} sum {} m{:?} dual {value:?}",
        put.number,
        put.x.as_slice(),
        first_sum(run, hedge),
        put.multipliers.values.as_slice()
    )
}

// The puts that follow a first one, as text behind it; where one is refused, the put
// that is there then.
fn further_text(
    alloc: Global,
    run: &Run,
    begun: String,
    mut hedge: Hedge,
) -> Result<String, AllocError>
    requires put { put_of run.now 1 ≡ Some (made_of hedge) }
{
    let mut text = begun;
    for step in 0..run.options.iterations {
        if let Err(fault) = next(alloc, run, &mut hedge) {
            return format!(in alloc; "{text}; {fault:?}; {}", put_text(alloc, run, &hedge)?);
        }
        text = format!(in alloc; "{text}; {}", put_text(alloc, run, &hedge)?)?;
    }
    Ok(text)
}

// All puts of a run, as text, with the wait-and-see bound.
pub fn puts_text(alloc: Global, run: &Run) -> Result<String, AllocError> {
    match first(alloc, run) {
        Ok(hedge) => {
            let begun = format!(in alloc;
                "bound {}; {}",
                hedge.bound,
                put_text(alloc, run, &hedge)?
            )?;
            further_text(alloc, run, begun, hedge)
        }
        Err(fault) => format!(in alloc; "{fault:?}"),
    }
}

#[test]
fn puts(rt: HostRuntime) -> Result<(), Fail> {
    let alloc = rt.alloc();
    for (core, time, stoch, scale, rho, iterations, told) in [
        (
            SMALL_CORE,
            SMALL_TIME,
            SMALL_STOCH,
            2,
            1,
            1,
            "bound 80; 1 x[2, 6] sum 40 m[-10, 10] dual Ok(120); 2 x[4, 6] sum 50 m[-15, 15] dual Ok(100)",
        ),
        (
            SMALL_CORE,
            SMALL_TIME,
            THREE_STOCH,
            2,
            1,
            2,
            "bound 2; 1 x[0, 0, 1] sum 1 m[-1, -1, 2] dual Ok(4); 2 x[0, 0, 1] sum 1 m[-2, -2, 4] dual Ok(6); 3 x[0, 0, 0] sum 0 m[-2, -2, 4] dual Ok(6)",
        ),
        (
            STAGES_CORE,
            STAGES_TIME,
            STAGES_STOCH,
            4,
            3,
            3,
            "bound 2300; 1 x[3, 0, 6, 2, 5, 0] sum 475 m[-132, -75, 93, 75, 39, 0] dual Ok(2711); 2 x[5, 0, 6, 2, 5, 0] sum 525 m[-151, -150, 149, 150, 2, 0] dual Ok(2898); 3 x[6, 0, 6, 2, 5, 0] sum 550 m[-114, -225, 186, 225, -72, 0] dual Ok(2972); 4 x[6, 1, 6, 2, 5, 0] sum 550 m[-77, -263, 223, 263, -146, 0] dual Ok(2756)",
        ),
        (
            IDLE_CORE,
            STAGES_TIME,
            STAGES_STOCH,
            4,
            3,
            2,
            "bound 2900; 1 x[3, 0, 6, 0, 5, 0] sum 475 m[-132, 0, 93, 0, 39, 0] dual Ok(3161); 2 x[5, 0, 6, 0, 5, 0] sum 525 m[-151, 0, 149, 0, 2, 0] dual Ok(3198); 3 x[6, 0, 6, 0, 5, 0] sum 550 m[-114, 0, 186, 0, -72, 0] dual Ok(3272)",
        ),
    ] {
        let Some(run) = joined(
            alloc,
            (core, time, stoch),
            &options(scale, rho, iterations, 1000000),
        ) else {
            return Err(AllocError.into());
        };
        assert_eq!(rt; puts_text(alloc, &run)?.as_str(), told);
    }
    Ok(())
}
