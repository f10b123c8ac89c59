ghost use Rattle.std.specs.Prelude.{◌≡◌, ◌<◌, ◌≤◌, ◌+◌, OnOk};
ghost use Rattle.drive_words.specs.Worlds.{is_written, rank_at};
ghost use Rattle.put_codec.specs.Layouts.{windows_of};
ghost use Rattle.rank_writer.specs.Writers.{IsPresent, StandsFor};
ghost use Rattle.schedule_core.specs.Drivers.{IsDriver, Steps, is_alone, put_in, with_written, world_of};
ghost use Rattle.schedule_core.specs.Seats.{RankCalls, viewed};
ghost use Rattle.schedule_lines.specs.declared.schedule.Actor.TheVariants.{Rank};

use crate::driver::Driver;
use plain_board::PlainBoard;
use put_codec::RunMeaning;
use rank_writer::RankWriter;
use run_calls::Put;
use sp_model::Run;
use std::alloc::{AllocError, Global};

// Whether a put stands whole in the windows of some ranks.
fn have_closed(ranks: &[RankWriter], put: u64) -> bool
    ensures { result ≡ is_written ranks.now put }
{
    ranks.iter().all(|rank| rank.has_closed(put))
}

// The rank's call at its seat.
fn write_at(
    of: &RunMeaning,
    put: &Put,
    board: &mut PlainBoard<RunMeaning>,
    seat: usize,
    writer: &mut RankWriter,
)
    requires of { of.now ≡ board.old.0 }
    requires put { IsPresent of.now put.now }
    requires late { writer.old.last < put.now.number }
    requires seat { seat ≤ windows_of board.old.0.layout }
    requires stands { StandsFor of.now.layout (viewed board.old seat) writer.old put.now.number }
    ensures { RankCalls of.now.layout board.old board.new seat put.now.number writer.old writer.new }
{
    board.select(seat);
    writer.step(of, put, board);
}

impl Driver {
    // The rank's next call of the present put. Behind the last one that closes it the hub
    // knows that the put stands in all windows.
    fn write(&mut self, run: &Run, rank: usize)
        requires driver { IsDriver run.now self.old }
        requires rank { rank < run.now.options.ranks }
        requires late { (rank_at self.old.ranks.items rank).last < put_in self.old }
        ensures driver { IsDriver run.now self.new }
        ensures writes { world_of self.new ≡ with_written (world_of self.old) rank }
    {
        let _run = run;
        let put = &self.hub.hedge.put;
        write_at(
            &self.of,
            put,
            &mut self.board,
            rank + 1,
            &mut self.ranks[rank],
        );
        if !have_closed(self.ranks.as_slice(), self.hub.put().number) {
            return;
        }
        self.hub.wrote();
    }

    // Whether the present put stands in all windows, and there is no spoke to poll.
    fn is_alone(&self) -> bool
        ensures { result ≡ is_alone self.now }
    {
        self.spokes.is_empty() && self.hub.wrote
    }

    // The rank's step, if it has one. Without spokes the hub decides behind the last call of
    // a put.
    pub(crate) fn rank_step(
        &mut self,
        alloc: Global,
        run: &Run,
        rank: usize,
    ) -> Result<(), AllocError>
        requires driver { IsDriver run.now self.old }
        requires rank { rank < run.now.options.ranks }
        ensures driver { OnOk result (IsDriver run.now self.new) }
        ensures steps { OnOk result (Steps run.now self.old (Rank rank) self.new) }
    {
        if self.ranks[rank].has_closed(self.hub.put().number) {
            return Ok(());
        }
        self.write(run, rank);
        if self.is_alone() {
            return self.decide(alloc, run);
        }
        Ok(())
    }
}
