ghost use Rattle.std.specs.Prelude.{◌≡◌, ◌≤◌, ◌^◌, ◌↔◌, All, IsTrue, OnOk};
ghost use Rattle.drive_words.specs.Leading.{rounds_ask, turn_asks, turns_ask};
ghost use Rattle.drive_words.specs.Driving.{actors_of, rounds_of, steps_of_puts};
ghost use Rattle.drive_words.specs.Resting.{IsAtRest};
ghost use Rattle.lagrangian_spoke.specs.declared.spoke.Phase.TheVariants.{Ended};
ghost use Rattle.schedule_core.specs.Asking.{all_ranks, all_spokes};
ghost use Rattle.schedule_core.specs.Drivers.{AreActors, IsActor, IsDriver, LeadsTo, Steps, world_of};

use crate::driver::Driver;
use lagrangian_spoke::{LagrangianSpoke, Phase};
use put_codec::{cells, layout_of};
use schedule_lines::{Actor, Turn};
use sp_model::Run;
use std::alloc::{AllocError, Global};

impl Driver {
    // One step of an actor, if it has one.
    fn step(&mut self, alloc: Global, run: &Run, actor: Actor) -> Result<(), AllocError>
        requires driver { IsDriver run.now self.old }
        requires actor { IsActor run.now actor }
        ensures driver { OnOk result (IsDriver run.now self.new) }
        ensures steps { OnOk result (Steps run.now self.old actor self.new) }
    {
        match actor {
            Actor::Hub => self.hub_step(alloc, run)?,
            Actor::Rank(rank) => self.rank_step(alloc, run, rank)?,
            Actor::Spoke(spoke) => self.spoke_step(alloc, run, spoke)?,
        }
        Ok(())
    }

    // The actor of a turn is asked as often as the turn says.
    fn take_turn(&mut self, alloc: Global, run: &Run, turn: Turn) -> Result<(), AllocError>
        requires driver { IsDriver run.now self.old }
        requires actor { IsActor run.now turn.actor }
        ensures driver { OnOk result (IsDriver run.now self.new) }
        ensures leads { OnOk result (LeadsTo run.now self.old (turn_asks turn) self.new) }
    {
        for asked in 0..turn.count {
            self.step(alloc, run, turn.actor)?;
        }
        Ok(())
    }

    /// Takes some turns, in order.
    pub fn take_turns(&mut self, alloc: Global, run: &Run, turns: &[Turn]) -> Result<(), AllocError>
        requires driver { IsDriver run.now self.old }
        requires actors { AreActors run.now turns.now }
        ensures driver { OnOk result (IsDriver run.now self.new) }
        ensures leads { OnOk result (LeadsTo run.now self.old (turns_ask turns.now) self.new) }
    {
        for turn in turns {
            self.take_turn(alloc, run, *turn)?;
        }
        Ok(())
    }

    // The ranks make a step each, in order.
    fn ask_ranks(&mut self, alloc: Global, run: &Run) -> Result<(), AllocError>
        requires driver { IsDriver run.now self.old }
        ensures driver { OnOk result (IsDriver run.now self.new) }
        ensures leads { OnOk result (LeadsTo run.now self.old (all_ranks run.now) self.new) }
    {
        for rank in 0..self.ranks.len() {
            self.rank_step(alloc, run, rank)?;
        }
        Ok(())
    }

    // The spokes make a step each, in order.
    fn ask_spokes(&mut self, alloc: Global, run: &Run) -> Result<(), AllocError>
        requires driver { IsDriver run.now self.old }
        ensures driver { OnOk result (IsDriver run.now self.new) }
        ensures leads { OnOk result (LeadsTo run.now self.old (all_spokes run.now) self.new) }
    {
        for spoke in 0..self.spokes.len() {
            self.spoke_step(alloc, run, spoke)?;
        }
        Ok(())
    }

    // A round: the hub, the ranks and the spokes make a step each.
    fn round(&mut self, alloc: Global, run: &Run) -> Result<(), AllocError>
        requires driver { IsDriver run.now self.old }
        ensures driver { OnOk result (IsDriver run.now self.new) }
        ensures leads { OnOk result (LeadsTo run.now self.old (actors_of run.now) self.new) }
    {
        self.hub_step(alloc, run)?;
        self.ask_ranks(alloc, run)?;
        self.ask_spokes(alloc, run)?;
        Ok(())
    }

    // Whether no actor has a step.
    fn is_at_rest(&self, run: &Run) -> bool
        requires driver { IsDriver run.now self.now }
        ensures { IsTrue result → IsAtRest (world_of self.now) }
    {
        let _run = run;
        self.is_stopped && have_ended(self.spokes.as_slice())
    }

    /// Rounds, as long as an actor has a step: no more of them would lead on.
    pub fn rest(&mut self, alloc: Global, run: &Run) -> Result<(), AllocError>
        requires driver { IsDriver run.now self.old }
        ensures driver { OnOk result (IsDriver run.now self.new) }
        ensures leads { OnOk result
            (LeadsTo run.now self.old (rounds_ask run.now (rounds_of run.now)) self.new) }
    {
        for made in 0..rounds(run) {
            if self.is_at_rest(run) {
                return Ok(());
            }
            self.round(alloc, run)?;
        }
        Ok(())
    }
}

// Whether all spokes have ended.
fn have_ended(spokes: &[LagrangianSpoke]) -> bool
    ensures { IsTrue result ↔ All (λ s. s.phase ≡ Ended) spokes.now }
{
    spokes.iter().all(|spoke| spoke.phase == Phase::Ended)
}

// How many steps it takes the ranks to write a put.
fn steps_of_a_put(run: &Run) -> u64
    ensures sum { result ≡ steps_of_puts run.now }
    ensures few { result ≤ 2 ^ 26 }
{
    let layout = layout_of(run);
    let mut steps = 0;
    for rank in 0..run.options.ranks {
        steps += 3 * cells(&layout, rank) as u64 + 2;
    }
    steps
}

// How many rounds there are at most.
fn rounds(run: &Run) -> u64
    ensures { result ≡ rounds_of run.now }
{
    (run.options.iterations + 2) * (steps_of_a_put(run) + 5 * run.options.lagrangian as u64 + 6)
}
