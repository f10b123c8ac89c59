ghost use Rattle.std.specs.Prelude.{◌≡◌, ◌+◌, ◌<◌, ◌++◌, ◌∷◌, [], length, Some, IfOk, OnErr};
ghost use Rattle.lagrangian_spoke.specs.Spokes.{IsWorkedOut, IsToAnswer, Keeps, Records};
ghost use Rattle.log_words.specs.declared.log.Answer.TheVariants.{Reply};

use crate::spoke::{LagrangianSpoke, Phase};
use dual_value::{DualFault, dual};
use log_words::Answer;
use sp_model::Run;
use std::alloc::{AllocError, Global};
use std::mem;

impl LagrangianSpoke {
    /// Works out the answer to a put, whose multipliers the reader has, and whether
    /// a reply is found, which is then to be written; the put is skipped else.
    pub(crate) fn work_out(
        &mut self,
        alloc: Global,
        run: &Run,
        put: u64,
    ) -> Result<bool, AllocError>
        requires { IsToAnswer run.now self.old put }
        ensures ok { IfOk result (IsWorkedOut run.now self.old self.new put) }
        ensures err { OnErr result (self.new ≡ self.old) }
    {
        match dual(alloc, run, &self.reader.put.multipliers, run.options.budget) {
            Ok(value) => {
                self.value = value;
                self.phase = Phase::Opens;
                Ok(true)
            }
            Err(DualFault::Spent { scenario, opened }) => {
                self.answers.push(Answer::Skip {
                    put,
                    scenario,
                    opened,
                });
                self.phase = Phase::Asks;
                Ok(false)
            }
            Err(DualFault::NoPoint { .. }) => unreachable!(),
            Err(DualFault::Memory) => Err(AllocError),
        }
    }

    /// Takes the reply among the answers, and its multipliers where it is better
    /// than all before.
    pub(crate) fn record(&mut self, put: u64)
        requires { 0 < self.old.answers.spare }
        ensures { Records self.old self.new put }
    {
        let value = self.value;
        self.answers.push(Answer::Reply {
            put,
            value: Some(value),
        });
        if !self.best.found || self.best.value < value {
            mem::swap(&mut self.best.multipliers, &mut self.reader.put.multipliers);
            self.best.found = true;
            self.best.put = put;
            self.best.value = value;
        }
    }
}
