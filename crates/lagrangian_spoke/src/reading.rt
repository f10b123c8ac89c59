ghost use Rattle.std.specs.Prelude.{◌≡◌, ◌+◌, ℕ, OnErr, IfOk};
ghost use Rattle.lagrangian_spoke.specs.Spokes.{Calls, IsRefusedReading, Leads, StandsFor, due_in};
ghost use Rattle.lagrangian_spoke.specs.declared.spoke.Phase.TheVariants.{Reads};

use crate::spoke::{LagrangianSpoke, Phase};
use log_words::SpokeStep;
use put_codec::RunMeaning;
use sp_model::Run;
use stamped_read::Read;
use std::alloc::{AllocError, Global};
use window_words::Board;

impl LagrangianSpoke {
    /// Makes the next step of the reading. Behind the last one the spoke works
    /// out its reply, or skips the put where a search is spent.
    pub(crate) fn read<B: Board<Of = RunMeaning>>(
        &mut self,
        alloc: Global,
        run: &Run,
        board: &mut B,
    ) -> Result<SpokeStep, AllocError>
        requires run { (B.of board.old).run.value ≡ run.now }
        requires phase { self.old.phase ≡ Reads }
        requires stands { StandsFor run.now (B.view board.old) self.old }
        ensures same { B.of board.new ≡ B.of board.old }
        ensures stands { IfOk result (λ told. StandsFor run.now (B.view board.new) self.new) }
        ensures made { (n : ℕ) × Calls B.leaves B.view (B.of board.old).layout.ranks
            board.old board.new (due_in self.old self.old.phase) n
            × IfOk result (Leads self.old self.new n self.old.phase)
            × OnErr result (IsRefusedReading self.old self.new n) }
    {
        match self.reader.step(board) {
            Read::Going => Ok(SpokeStep::Moved),
            Read::Again(_) => {
                self.phase = Phase::Asks;
                Ok(SpokeStep::Again)
            }
            Read::Reading { put } => match self.work_out(alloc, run, put) {
                Ok(_) => Ok(SpokeStep::Moved),
                Err(fault) => Err(fault),
            },
        }
    }
}
