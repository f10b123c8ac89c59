ghost use Rattle.std.specs.Prelude.{◌≡◌, ◌≢◌, ◌+◌, ℕ, OnErr, IfOk};
ghost use Rattle.lagrangian_spoke.specs.Spokes.{Calls, IsRefusedReading, Leads, StandsFor, due_in};
ghost use Rattle.lagrangian_spoke.specs.declared.spoke.Phase.TheVariants.{Ended};

use crate::spoke::{LagrangianSpoke, Phase};
use log_words::SpokeStep;
use put_codec::RunMeaning;
use sp_model::Run;
use std::alloc::{AllocError, Global};
use window_words::Board;

impl LagrangianSpoke {
    /// Makes the one call of the board that is due, and goes on to the
    /// situation behind it. Memory can be refused only to the search behind a
    /// reading that is answered.
    pub fn step<B: Board<Of = RunMeaning>>(
        &mut self,
        alloc: Global,
        run: &Run,
        board: &mut B,
    ) -> Result<SpokeStep, AllocError>
        requires run { (B.of board.old).run.value ≡ run.now }
        requires going { self.old.phase ≢ Ended }
        requires stands { StandsFor run.now (B.view board.old) self.old }
        ensures same { B.of board.new ≡ B.of board.old }
        ensures stands { IfOk result (λ told. StandsFor run.now (B.view board.new) self.new) }
        ensures made { (n : ℕ) × Calls B.leaves B.view (B.of board.old).layout.ranks
            board.old board.new (due_in self.old self.old.phase) n
            × IfOk result (Leads self.old self.new n self.old.phase)
            × OnErr result (IsRefusedReading self.old self.new n) }
    {
        match self.phase {
            Phase::Asks => Ok(self.ask(board)),
            Phase::Reads => self.read(alloc, run, board),
            Phase::Opens => Ok(self.open(board)),
            Phase::Writes(words) => {
                if words < 3 {
                    Ok(self.write(words, board))
                } else {
                    Ok(self.close(board))
                }
            }
            Phase::Ended => unreachable!(),
        }
    }
}
