ghost use Rattle.std.specs.Prelude.{◌≡◌, ◌≤◌, OnErr, OnOk};
ghost use Rattle.lagrangian_spoke.specs.Answering.{last_put};
ghost use Rattle.lagrangian_spoke.specs.Spokes.{HasFinished, IsPutOf, IsEnd, IsRefusedPut, IsSpoke};
ghost use Rattle.lagrangian_spoke.specs.declared.spoke.Phase.TheVariants.{Ended};

use crate::spoke::{LagrangianSpoke, Phase};
use log_words::{Answer, Backing, SpokeEnd, SpokeKind, SpokeLog};
use run_calls::Put;
use sp_model::Run;
use std::alloc::{AllocError, Global};
use wide_num::List;

// The put of the last answer, and 0 before any.
fn last_answered(answers: &[Answer]) -> u64
    ensures { result ≡ last_put answers.now }
{
    match answers.last() {
        Some(Answer::Reply { put, .. }) => *put,
        Some(Answer::Skip { put, .. }) => *put,
        None => 0,
    }
}

impl LagrangianSpoke {
    /// Answers a put of the run directly, and not through a window: the last put,
    /// of which the spoke may not have read a word. It does nothing where that
    /// put is the last that was answered. Memory can be refused only to a copy of the
    /// put's multipliers and to the search for their dual value; the answers and the
    /// best stay then, and the spoke is not to be used again.
    pub fn finish(&mut self, alloc: Global, run: &Run, put: &Put) -> Result<(), AllocError>
        requires ended { self.old.phase ≡ Ended }
        requires spoke { IsSpoke run.now self.old }
        requires put { IsPutOf run.now put.now }
        requires newer { last_put self.old.answers.items ≤ put.now.number }
        ensures ok { OnOk result (HasFinished run.now self.old self.new put.now.number) }
        ensures err { OnErr result (IsRefusedPut self.old self.new put.now.number) }
    {
        if last_answered(self.answers.items()) == put.number {
            return Ok(());
        }
        let values = List::from_slice(alloc, put.multipliers.values.as_slice())?;
        self.reader.put.multipliers.values = values;
        let found = self.work_out(alloc, run, put.number)?;
        if !found {
            self.phase = Phase::Ended;
            return Ok(());
        }
        self.record(put.number);
        self.phase = Phase::Ended;
        Ok(())
    }

    /// What the spoke leaves.
    pub fn into_end(self) -> SpokeEnd
        ensures { IsEnd self result }
    {
        let LagrangianSpoke { answers, best, .. } = self;
        let best = if best.found {
            Some(Backing::Lower {
                put: best.put,
                value: best.value,
                multipliers: best.multipliers,
            })
        } else {
            None
        };
        SpokeEnd {
            log: SpokeLog {
                kind: SpokeKind::Lagrangian,
                answers: answers.into_list(),
            },
            best,
        }
    }
}
