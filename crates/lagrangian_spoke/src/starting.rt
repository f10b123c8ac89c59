ghost use Rattle.std.specs.Prelude.{◌≡◌, ◌+◌, ◌<◌, IfOk};
ghost use Rattle.put_codec.specs.Layouts.{layout_in};
ghost use Rattle.put_read.specs.Reads.{fresh_in};
ghost use Rattle.window_words.specs.declared.views.View.{View};
ghost use Rattle.lagrangian_spoke.specs.Spokes.{IsFresh, IsNewSeat, IsNoBest, StandsFor};

use crate::spoke::{Best, LagrangianSpoke, Phase};
use put_read::PutReader;
use sp_model::{Multipliers, Run};
use std::alloc::{AllocError, Global};
use wide_num::{List, Room};

// No reply, with room for the multipliers of one.
fn no_best(alloc: Global, run: &Run) -> Result<Best, AllocError>
    ensures { IfOk result (IsNoBest run.now) }
{
    let cells = run.program.scenarios.len() * run.nonleaf as usize;
    Ok(Best {
        found: false,
        put: 0,
        value: 0,
        multipliers: Multipliers {
            values: List::from_vec(vec![in alloc; 0; cells]?),
        },
    })
}

impl LagrangianSpoke {
    /// A Lagrangian spoke that has answered nothing, by its number among all
    /// spokes. It takes here all the memory that its readings, its replies and
    /// its answers need.
    pub fn start(alloc: Global, run: &Run, number: usize) -> Result<LagrangianSpoke, AllocError>
        requires { number < run.now.options.lagrangian }
        ensures fresh { IfOk result (IsFresh number) }
        ensures reader { IfOk result (λ spoke. spoke.reader.reader ≡ fresh_in (layout_in run.now)) }
        ensures stands { IfOk result (λ spoke. (v : View) →
            IsNewSeat run.now.options.ranks (run.now.options.ranks + number) v →
            StandsFor run.now v spoke) }
    {
        let reader = PutReader::new(alloc, run)?;
        let answers = Room::new(alloc, (run.options.iterations + 1) as usize)?;
        let best = no_best(alloc, run)?;
        Ok(LagrangianSpoke {
            number,
            phase: Phase::Asks,
            reader,
            value: 0,
            answers,
            best,
        })
    }
}
