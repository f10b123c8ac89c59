ghost use Rattle.std.specs.Prelude.{◌≡◌, ℕ, [], ◌∷◌, Option, ℤ, FitsSigned, IfSome};
ghost use Rattle.std.specs.Int.{w128};
ghost use Rattle.wide_num.specs.RoomContents.{with_room};
ghost use Rattle.window_words.specs.declared.views.View.{View};
ghost use Rattle.stamped_read.specs.Promises.{Makes};
ghost use Rattle.stamped_read.specs.Readers.{due, fresh_reader};
ghost use Rattle.word_codec.specs.Spelling.{reply_words};
ghost use Rattle.sp_model.specs.declared.run.Run.{Run};
ghost use Rattle.put_read.specs.SpokeReads.{AcceptsReply, IsSpokeWindow, ReadsSpoke, TellsReply, read_of};

use put_codec::RunMeaning;
use stamped_read::{Again, Read, ReplyReader};
use window_words::Board;
use word_codec::decode_reply;

/// What a step of a reader of replies tells.
#[derive(Clone, Copy, PartialEq, Debug, Drop)]
pub enum ReplyRead {
    Going,
    /// The spoke's reply to this put is read whole.
    Reading { put: u64, value: Option<i128> },
    Again(Again),
}

/// A reader of one spoke's replies to the puts of a run.
#[derive(Drop)]
pub struct SpokeReader {
    pub reader: ReplyReader,
}

// The reply with these words, and none where no reply has them.
fn reply_in(words: [u64; 3]) -> Option<i128>
    ensures { (reply : Option ℤ) → IfSome reply (FitsSigned w128) →
        words ≡ reply_words reply → result ≡ reply }
{
    match decode_reply(words) {
        Ok(value) => value,
        Err(_) => None,
    }
}

impl SpokeReader {
    /// A reader of a spoke's window, by its number among all windows, that has
    /// read nothing.
    pub fn new(window: usize) -> SpokeReader
        ensures fresh { result.reader ≡ fresh_reader window (with_room 3 ∷ []) }
        ensures reads { (run : Run) (v : View) → IsSpokeWindow run window →
            ReadsSpoke run v result }
    {
        SpokeReader {
            reader: ReplyReader::new(window),
        }
    }

    /// The put of the last reply that was read whole, and 0 before.
    pub fn last(&self) -> u64
        ensures { result ≡ self.now.reader.last }
    {
        self.reader.last()
    }

    /// Makes the one call of the board that is due.
    pub fn step<B: Board<Of = RunMeaning>>(&mut self, board: &mut B) -> ReplyRead
        requires { ReadsSpoke (B.of board.old).run.value (B.view board.old) self.old }
        ensures made { (n : ℕ) × Makes B.leaves B.view (B.of board.old).layout.ranks
            board.old board.new self.old.reader self.new.reader (read_of result)
            (due self.old.reader) n }
        ensures same { B.of board.new ≡ B.of board.old }
        ensures window { self.new.reader.window ≡ self.old.reader.window }
        ensures reads { ReadsSpoke (B.of board.old).run.value (B.view board.new) self.new }
        ensures tells { TellsReply (B.of board.old).run.value self.old self.new result }
        ensures accepts { AcceptsReply (B.of board.old).layout.ranks self.old.reader.window
            (B.view board.old) (B.view board.new) result }
    {
        match self.reader.step(board) {
            Read::Going => ReplyRead::Going,
            Read::Again(again) => ReplyRead::Again(again),
            Read::Reading { put } => {
                let value = reply_in(self.reader.words());
                ReplyRead::Reading { put, value }
            }
        }
    }
}
