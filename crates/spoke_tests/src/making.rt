//! All puts of a run.

ghost use Rattle.std.specs.Prelude.{◌≡◌, ◌≤◌, ◌+◌, All, IfOk, OnOk, Some};
ghost use Rattle.hedging.specs.Hedges.{made_of};
ghost use Rattle.lagrangian_spoke.specs.Spokes.{IsPutOf};
ghost use Rattle.put_words.specs.Puts.{put_of};

use hedging::{Hedge, next};
use run_calls::Put;
use sp_model::{Multipliers, Run};
use std::alloc::{AllocError, Global};
use wide_num::List;

/// The same put once more.
fn copied(alloc: Global, put: &Put) -> Result<Put, AllocError>
    ensures { IfOk result (λ copy. copy ≡ put.now) }
{
    let values = List::from_slice(alloc, put.multipliers.values.as_slice())?;
    let x = List::from_slice(alloc, put.x.as_slice())?;
    Ok(Put {
        number: put.number,
        multipliers: Multipliers { values },
        x,
    })
}

/// Puts a hedge's put behind others.
fn push_put(alloc: Global, run: &Run, puts: &mut List<Put>, hedge: &Hedge) -> Result<(), AllocError>
    requires puts { All (IsPutOf run.now) puts.old }
    requires put { put_of run.now hedge.now.put.number ≡ Some (made_of hedge.now) }
    requires first { 1 ≤ hedge.now.put.number }
    requires few { hedge.now.put.number ≤ run.now.options.iterations + 1 }
    ensures { OnOk result (All (IsPutOf run.now) puts.new) }
{
    let _run = run;
    let put = copied(alloc, &hedge.put)?;
    puts.push(put)
}

/// All puts of a run, in order, as far as no search is spent.
pub fn all_puts(alloc: Global, run: &Run, mut hedge: Hedge) -> Result<List<Put>, AllocError>
    requires { put_of run.now 1 ≡ Some (made_of hedge) }
    ensures { IfOk result (All (IsPutOf run.now)) }
{
    let mut puts = List::new(alloc);
    push_put(alloc, run, &mut puts, &hedge)?;
    for step in 0..run.options.iterations {
        if next(alloc, run, &mut hedge).is_err() {
            return Ok(puts);
        }
        push_put(alloc, run, &mut puts, &hedge)?;
    }
    Ok(puts)
}
