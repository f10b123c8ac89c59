ghost use Rattle.std.specs.Prelude.{◌≡◌, ◌≢◌, ◌≤◌, ◌<◌, None, true, length, OnOk};
ghost use Rattle.put_read.specs.SpokeReads.{ReadsSpoke};
ghost use Rattle.schedule_core.specs.Drivers.{Decides, IsDriver, IsPolled, PassesOn, Steps};
ghost use Rattle.schedule_core.specs.Seats.{HubStops, PollCalls, viewed};
ghost use Rattle.schedule_lines.specs.declared.schedule.Actor.TheVariants.{Hub};

use crate::driver::Driver;
use hub_cylinder::Decision;
use plain_board::PlainBoard;
use put_codec::RunMeaning;
use put_read::{ReplyRead, SpokeReader};
use sp_model::Run;
use std::alloc::{AllocError, Global};
use window_words::Board;

// The next call of a reader of a spoke's window, at the seat of the first rank.
fn read_at(board: &mut PlainBoard<RunMeaning>, run: &Run, poll: &mut SpokeReader) -> ReplyRead
    requires run { board.old.0.run.value ≡ run.now }
    requires reads { ReadsSpoke run.now (viewed board.old 1) poll.old }
    ensures { PollCalls run.now board.old board.new poll.old poll.new result }
{
    let _run = run;
    board.select(1);
    poll.step(board)
}

// Stops, at the hub's seat.
fn stop_at(board: &mut PlainBoard<RunMeaning>, last: u64)
    requires hub { (viewed board.old 0).hub ≡ true }
    requires once { (viewed board.old 0).stopped ≡ 0 }
    requires last { 1 ≤ last }
    ensures { HubStops board.old board.new last }
{
    board.select(0);
    board.stop(last);
}

impl Driver {
    // All spokes were polled: ends the run, or makes the next put, behind which the first
    // spoke is polled first.
    pub(crate) fn decide(&mut self, alloc: Global, run: &Run) -> Result<(), AllocError>
        requires polled { IsPolled run.now self.old }
        requires going { self.old.hub.end ≡ None }
        requires written { self.old.hub.wrote ≡ true }
        ensures driver { OnOk result (IsDriver run.now self.new) }
        ensures decides { OnOk result (Decides run.now self.old self.new) }
    {
        match self.hub.decide(alloc, run)? {
            Decision::Go => {
                self.asks = 0;
                Ok(())
            }
            Decision::Stop => Ok(()),
        }
    }

    // The spoke was polled: the next one follows, or the hub decides.
    fn pass_on(&mut self, alloc: Global, run: &Run) -> Result<(), AllocError>
        requires polled { IsPolled run.now self.old }
        requires going { self.old.hub.end ≡ None }
        requires written { self.old.hub.wrote ≡ true }
        requires asks { self.old.asks < length self.old.spokes.items }
        ensures driver { OnOk result (IsDriver run.now self.new) }
        ensures passes { OnOk result (PassesOn run.now self.old self.new) }
    {
        if self.asks + 1 < self.spokes.len() {
            self.asks += 1;
            return Ok(());
        }
        self.decide(alloc, run)
    }

    // The next step of the polling.
    fn poll(&mut self, alloc: Global, run: &Run) -> Result<(), AllocError>
        requires driver { IsDriver run.now self.old }
        requires going { self.old.hub.end ≡ None }
        requires written { self.old.hub.wrote ≡ true }
        requires asks { self.old.asks < length self.old.spokes.items }
        ensures driver { OnOk result (IsDriver run.now self.new) }
        ensures steps { OnOk result (Steps run.now self.old Hub self.new) }
    {
        self.board.rule();
        match read_at(&mut self.board, run, &mut self.polls[self.asks]) {
            ReplyRead::Going => Ok(()),
            ReplyRead::Reading { put, value } => {
                self.hub.take(self.asks, put, value);
                self.pass_on(alloc, run)
            }
            ReplyRead::Again(_) => self.pass_on(alloc, run),
        }
    }

    // Stops, once.
    fn stop(&mut self, run: &Run)
        requires driver { IsDriver run.now self.old }
        requires ended { self.old.hub.end ≢ None }
        ensures driver { IsDriver run.now self.new }
        ensures steps { Steps run.now self.old Hub self.new }
    {
        let _run = run;
        if self.is_stopped {
            return;
        }
        stop_at(&mut self.board, self.hub.put().number);
        self.is_stopped = true;
    }

    // The hub's step, if it has one.
    pub(crate) fn hub_step(&mut self, alloc: Global, run: &Run) -> Result<(), AllocError>
        requires driver { IsDriver run.now self.old }
        ensures driver { OnOk result (IsDriver run.now self.new) }
        ensures steps { OnOk result (Steps run.now self.old Hub self.new) }
    {
        if self.hub.end.is_some() {
            self.stop(run);
            return Ok(());
        }
        if self.hub.wrote && self.asks < self.spokes.len() {
            return self.poll(alloc, run);
        }
        Ok(())
    }
}
