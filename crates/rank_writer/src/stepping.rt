ghost use Rattle.std.specs.Prelude.{◌≡◌, ◌<◌, ◌≤◌, ℕ};
ghost use Rattle.rank_writer.specs.Writers.{Calls, IsPresent, StandsFor, due_in, written};
ghost use Rattle.rank_writer.specs.declared.writer.Writing.TheVariants.{Open, Shut};

use crate::writer::{RankWriter, Writing};
use put_codec::{RunMeaning, part_word};
use run_calls::Put;
use window_words::Board;

impl RankWriter {
    // Opens the window for a put.
    fn open<B: Board<Of = RunMeaning>>(&mut self, of: &RunMeaning, put: &Put, board: &mut B)
        requires of { of.now ≡ B.of board.old }
        requires put { IsPresent of.now put.now }
        requires due { self.old.last < put.now.number }
        requires shut { self.old.writing ≡ Shut }
        requires stands { StandsFor of.now.layout (B.view board.old) self.old put.now.number }
        ensures same { B.of board.new ≡ B.of board.old }
        ensures stands { StandsFor of.now.layout (B.view board.new) self.new put.now.number }
        ensures made { Calls B.leaves B.view of.now.layout.ranks board.old board.new
            (due_in of.now.layout self.old put.now) 0 }
        ensures writes { self.new ≡ written self.old put.now.number }
    {
        board.open_put(put.number);
        self.writing = Writing::Open(0);
    }

    // Puts the next word of the rank's part, of which so many are put.
    fn write<B: Board<Of = RunMeaning>>(
        &mut self,
        words: usize,
        of: &RunMeaning,
        put: &Put,
        board: &mut B,
    )
        requires of { of.now ≡ B.of board.old }
        requires put { IsPresent of.now put.now }
        requires open { self.old.writing ≡ Open words }
        requires left { words < self.old.width }
        requires stands { StandsFor of.now.layout (B.view board.old) self.old put.now.number }
        ensures same { B.of board.new ≡ B.of board.old }
        ensures stands { StandsFor of.now.layout (B.view board.new) self.new put.now.number }
        ensures made { Calls B.leaves B.view of.now.layout.ranks board.old board.new
            (due_in of.now.layout self.old put.now) 0 }
        ensures writes { self.new ≡ written self.old put.now.number }
    {
        board.put_word(part_word(put, &of.layout, self.rank, words));
        self.writing = Writing::Open(words + 1);
    }

    // Closes the put, all of whose words are put.
    fn close<B: Board<Of = RunMeaning>>(
        &mut self,
        words: usize,
        of: &RunMeaning,
        put: &Put,
        board: &mut B,
    )
        requires of { of.now ≡ B.of board.old }
        requires open { self.old.writing ≡ Open words }
        requires full { self.old.width ≤ words }
        requires stands { StandsFor of.now.layout (B.view board.old) self.old put.now.number }
        ensures same { B.of board.new ≡ B.of board.old }
        ensures stands { StandsFor of.now.layout (B.view board.new) self.new put.now.number }
        ensures made { Calls B.leaves B.view of.now.layout.ranks board.old board.new
            (due_in of.now.layout self.old put.now) 0 }
        ensures writes { self.new ≡ written self.old put.now.number }
    {
        board.close_put();
        self.last = put.number;
        self.writing = Writing::Shut;
    }

    /// Makes the one call of the board that is due while a put is the present
    /// one and doesn't stand whole in the rank's window: opens it, puts its next
    /// word, or closes it.
    pub fn step<B: Board<Of = RunMeaning>>(&mut self, of: &RunMeaning, put: &Put, board: &mut B)
        requires of { of.now ≡ B.of board.old }
        requires put { IsPresent of.now put.now }
        requires due { self.old.last < put.now.number }
        requires stands { StandsFor of.now.layout (B.view board.old) self.old put.now.number }
        ensures same { B.of board.new ≡ B.of board.old }
        ensures stands { StandsFor of.now.layout (B.view board.new) self.new put.now.number }
        ensures made { Calls B.leaves B.view of.now.layout.ranks board.old board.new
            (due_in of.now.layout self.old put.now) 0 }
        ensures writes { self.new ≡ written self.old put.now.number }
    {
        match self.writing {
            Writing::Shut => self.open(of, put, board),
            Writing::Open(words) => {
                if words < self.width {
                    self.write(words, of, put, board);
                } else {
                    self.close(words, of, put, board);
                }
            }
        }
    }
}
