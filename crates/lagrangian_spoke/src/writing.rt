ghost use Rattle.std.specs.Prelude.{◌≡◌, ◌<◌, ◌+◌, ℕ};
ghost use Rattle.lagrangian_spoke.specs.Spokes.{Calls, Leads, StandsFor, due_in};
ghost use Rattle.lagrangian_spoke.specs.declared.spoke.Phase.TheVariants.{Asks, Opens, Writes};

use crate::spoke::{LagrangianSpoke, Phase};
use log_words::{Answer, SpokeStep};
use put_codec::RunMeaning;
use std::mem;
use window_words::Board;
use word_codec::reply_word;

impl LagrangianSpoke {
    /// Asks whether the hub has stopped.
    pub(crate) fn ask<B: Board<Of = RunMeaning>>(&mut self, board: &mut B) -> SpokeStep
        requires phase { self.old.phase ≡ Asks }
        requires stands { StandsFor (B.of board.old).run.value (B.view board.old) self.old }
        ensures same { B.of board.new ≡ B.of board.old }
        ensures stands { StandsFor (B.of board.old).run.value (B.view board.new) self.new }
        ensures made { (n : ℕ) × Calls B.leaves B.view (B.of board.old).layout.ranks
            board.old board.new (due_in self.old self.old.phase) n
            × Leads self.old self.new n self.old.phase result }
    {
        if board.stopped() == 0 {
            self.phase = Phase::Reads;
            return SpokeStep::Asked;
        }
        self.phase = Phase::Ended;
        SpokeStep::Ended
    }

    /// Opens the reply.
    pub(crate) fn open<B: Board<Of = RunMeaning>>(&mut self, board: &mut B) -> SpokeStep
        requires phase { self.old.phase ≡ Opens }
        requires stands { StandsFor (B.of board.old).run.value (B.view board.old) self.old }
        ensures same { B.of board.new ≡ B.of board.old }
        ensures stands { StandsFor (B.of board.old).run.value (B.view board.new) self.new }
        ensures made { (n : ℕ) × Calls B.leaves B.view (B.of board.old).layout.ranks
            board.old board.new (due_in self.old self.old.phase) n
            × Leads self.old self.new n self.old.phase result }
    {
        board.open_put(self.reader.reader.last());
        self.phase = Phase::Writes(0);
        SpokeStep::Moved
    }

    /// Puts a word of the reply.
    pub(crate) fn write<B: Board<Of = RunMeaning>>(
        &mut self,
        words: usize,
        board: &mut B,
    ) -> SpokeStep
        requires phase { self.old.phase ≡ Writes words }
        requires left { words < 3 }
        requires stands { StandsFor (B.of board.old).run.value (B.view board.old) self.old }
        ensures same { B.of board.new ≡ B.of board.old }
        ensures stands { StandsFor (B.of board.old).run.value (B.view board.new) self.new }
        ensures made { (n : ℕ) × Calls B.leaves B.view (B.of board.old).layout.ranks
            board.old board.new (due_in self.old self.old.phase) n
            × Leads self.old self.new n self.old.phase result }
    {
        board.put_word(reply_word(Some(self.value), words));
        self.phase = Phase::Writes(words + 1);
        SpokeStep::Moved
    }

    /// Closes the reply, which is an answer from now on.
    pub(crate) fn close<B: Board<Of = RunMeaning>>(&mut self, board: &mut B) -> SpokeStep
        requires phase { self.old.phase ≡ Writes 3 }
        requires stands { StandsFor (B.of board.old).run.value (B.view board.old) self.old }
        ensures same { B.of board.new ≡ B.of board.old }
        ensures stands { StandsFor (B.of board.old).run.value (B.view board.new) self.new }
        ensures made { (n : ℕ) × Calls B.leaves B.view (B.of board.old).layout.ranks
            board.old board.new (due_in self.old self.old.phase) n
            × Leads self.old self.new n self.old.phase result }
    {
        board.close_put();
        let put = self.reader.reader.last();
        self.phase = Phase::Asks;
        self.record(put);
        SpokeStep::Replied { put }
    }
}
