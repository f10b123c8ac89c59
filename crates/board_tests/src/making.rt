//! The puts of a run.

ghost use Rattle.std.specs.Prelude.{◌≡◌, ◌+◌, ◌≤◌, All, IfOk, OnOk, Some};
ghost use Rattle.hedging.specs.Hedges.{made_of};
ghost use Rattle.lagrangian_spoke.specs.Spokes.{IsPutOf};
ghost use Rattle.put_words.specs.Puts.{put_of};

use hedging::{Hedge, first, next};
use run_calls::Put;
use sp_model::{Multipliers, Run};
use std::alloc::{AllocError, Global};
use wide_num::List;

/// A put once more.
fn copy_of(alloc: Global, put: &Put) -> Result<Put, AllocError>
    ensures { IfOk result (λ copy. copy ≡ put.now) }
{
    let values = List::from_slice(alloc, put.multipliers.values.as_slice())?;
    let x = List::from_slice(alloc, put.x.as_slice())?;
    Ok(Put {
        number: put.number,
        multipliers: Multipliers { values },
        x,
    })
}

/// The hedge's put behind others.
fn put_on(alloc: Global, run: &Run, hedge: &Hedge, puts: &mut List<Put>) -> Result<(), AllocError>
    requires put { put_of run.now hedge.now.put.number ≡ Some (made_of hedge.now) }
    requires first { 1 ≤ hedge.now.put.number }
    requires last { hedge.now.put.number ≤ run.now.options.iterations + 1 }
    requires puts { All (IsPutOf run.now) puts.old }
    ensures { OnOk result (All (IsPutOf run.now) puts.new) }
{
    let _run = run;
    let copy = copy_of(alloc, &hedge.put)?;
    puts.push(copy)?;
    Ok(())
}

/// All puts of a run, in order, as far as no search is spent.
pub fn puts_of(alloc: Global, run: &Run) -> Result<List<Put>, AllocError>
    ensures { IfOk result (All (IsPutOf run.now)) }
{
    let mut puts = List::new(alloc);
    let Ok(mut hedge) = first(alloc, run) else {
        return Ok(puts);
    };
    put_on(alloc, run, &hedge, &mut puts)?;
    for step in 0..run.options.iterations {
        if next(alloc, run, &mut hedge).is_err() {
            return Ok(puts);
        }
        put_on(alloc, run, &hedge, &mut puts)?;
    }
    Ok(puts)
}
