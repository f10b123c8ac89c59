ghost use Rattle.std.specs.Prelude.{◌≡◌, ◌≢◌, ◌≤◌, ◌<◌, IfOk, OnOk};
ghost use Rattle.lagrangian_spoke.specs.Spokes.{StandsFor};
ghost use Rattle.lagrangian_spoke.specs.declared.spoke.Phase.TheVariants.{Ended};
ghost use Rattle.put_codec.specs.Layouts.{windows_of};
ghost use Rattle.schedule_core.specs.Drivers.{IsDriver, Steps};
ghost use Rattle.schedule_core.specs.Seats.{SpokeCalls, viewed};
ghost use Rattle.schedule_lines.specs.declared.schedule.Actor.TheVariants.{Spoke};

use crate::driver::Driver;
use lagrangian_spoke::{LagrangianSpoke, Phase};
use log_words::SpokeStep;
use plain_board::PlainBoard;
use put_codec::RunMeaning;
use sp_model::Run;
use std::alloc::{AllocError, Global};

// The spoke's call at its seat.
fn call_at(
    alloc: Global,
    run: &Run,
    board: &mut PlainBoard<RunMeaning>,
    seat: usize,
    spoke: &mut LagrangianSpoke,
) -> Result<SpokeStep, AllocError>
    requires run { board.old.0.run.value ≡ run.now }
    requires seat { seat ≤ windows_of board.old.0.layout }
    requires going { spoke.old.phase ≢ Ended }
    requires stands { StandsFor run.now (viewed board.old seat) spoke.old }
    ensures { IfOk result (SpokeCalls run.now board.old board.new seat spoke.old spoke.new) }
{
    board.select(seat);
    spoke.step(alloc, run, board)
}

impl Driver {
    // The spoke's step, if it has one.
    pub(crate) fn spoke_step(
        &mut self,
        alloc: Global,
        run: &Run,
        spoke: usize,
    ) -> Result<(), AllocError>
        requires driver { IsDriver run.now self.old }
        requires spoke { spoke < run.now.options.lagrangian }
        ensures driver { OnOk result (IsDriver run.now self.new) }
        ensures steps { OnOk result (Steps run.now self.old (Spoke spoke) self.new) }
    {
        if self.spokes[spoke].phase == Phase::Ended {
            return Ok(());
        }
        self.board.rule();
        let seat = run.options.ranks + 1 + spoke;
        call_at(alloc, run, &mut self.board, seat, &mut self.spokes[spoke])?;
        Ok(())
    }
}
