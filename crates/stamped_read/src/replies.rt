ghost use Rattle.std.specs.Prelude.{◌≡◌, ℕ, ◌<◌, true, [], ◌∷◌, length, IsTrue, ◌↔◌};
ghost use Rattle.wide_num.specs.RoomContents.{with_room};
ghost use Rattle.stamped_read.specs.Readers.{fresh_reader, part, words_of, window_of};
ghost use Rattle.stamped_read.specs.Readers.{due, unfit, begins, begins_told, reads, IsReader};
ghost use Rattle.stamped_read.specs.Readers.{ends, ends_told};
ghost use Rattle.stamped_read.specs.Promises.{ReadsFor, ReadsReplies, Makes, TellsWhole, IsSameGroup};

use crate::read::{Again, Read};
use std::marker::Model;
use window_words::Board;

/// A reader of one window whose entries have three words, as a reply's has.
#[derive(Drop)]
pub struct ReplyReader {
    window: usize,
    words: [u64; 3],
    len: usize,
    begun: bool,
    first: u64,
    last: u64,
}

impl Model for ReplyReader {
    ghost use Rattle.std.specs.Prelude.{◌-◌, ◌≤◌, [], ◌∷◌, take};
    ghost use Rattle.stamped_read.specs.Readers.{Reader, IsReader};

    ghost Value = { Reader };

    ghost view = { λ a. record {
      window = a.window;
      parts = record { items = take a.len a.words; spare = 3 - a.len } ∷ [];
      rank = 0;
      begun = a.begun;
      first = a.first;
      last = a.last;
    } };

    ghost invariant = { λ a. (a.len ≤ 3) × IsReader record {
      window = a.window;
      parts = record { items = take a.len a.words; spare = 3 - a.len } ∷ [];
      rank = 0;
      begun = a.begun;
      first = a.first;
      last = a.last;
    } };
}

impl ReplyReader {
    /// A reader of this window that has read nothing.
    pub fn new(window: usize) -> ReplyReader
        ensures fresh { result ≡ fresh_reader window (with_room 3 ∷ []) }
        ensures reads { ReadsReplies window result }
    {
        ReplyReader {
            window,
            words: [0; 3],
            len: 0,
            begun: false,
            first: 0,
            last: 0,
        }
    }

    /// The last entry that was read whole, and 0 before.
    pub fn last(&self) -> u64
        ensures { result ≡ self.now.last }
    {
        self.last
    }

    /// The words. Where the last step answered a reading, they are those of its
    /// entry.
    pub fn words(&self) -> [u64; 3]
        requires { length (words_of self.now 0) ≡ 3 }
        ensures { result ≡ words_of self.now 0 }
    {
        self.words
    }

    /// Makes the one call of the board that is due.
    pub fn step<B: Board>(&mut self, board: &mut B) -> Read
        requires { ReadsFor (B.Of.entry (B.of board.old)) (B.Of.wide (B.of board.old))
            (B.Of.count (B.of board.old)) (B.view board.old) self.old }
        ensures made { (n : ℕ) × Makes B.leaves B.view (B.Of.lead (B.of board.old))
            board.old board.new self.old self.new result (due self.old) n }
        ensures same { B.of board.new ≡ B.of board.old }
        ensures reads { ReadsFor (B.Of.entry (B.of board.old)) (B.Of.wide (B.of board.old))
            (B.Of.count (B.of board.old)) (B.view board.new) self.new }
        ensures whole { TellsWhole (B.Of.entry (B.of board.old)) (B.Of.last (B.of board.old))
            self.old self.new result }
        ensures group { IsSameGroup self.old self.new }
    {
        let window = self.window();
        if !self.is_begun() {
            let stamp = board.begin_read(window);
            self.begin(stamp)
        } else if self.is_full() {
            let stamp = board.end_read(window);
            self.end(stamp)
        } else {
            let word = board.read_word(window);
            self.take(word);
            Read::Going
        }
    }

    /// The window that is read.
    fn window(&self) -> usize
        ensures window { result ≡ window_of self.now }
        ensures facts { IsReader self.now }
    {
        self.window
    }

    /// Whether a reading is begun.
    fn is_begun(&self) -> bool
        ensures { result ≡ self.now.begun }
    {
        self.begun
    }

    /// Whether all words are read.
    fn is_full(&self) -> bool
        ensures { IsTrue result ↔ (part self.now self.now.rank).spare ≡ 0 }
    {
        self.len == 3
    }

    /// Why no reading begins at this stamp.
    fn unfit(&self, stamp: u64) -> Option<Again>
        ensures { result ≡ unfit self.now stamp }
    {
        let last = self.last;
        if stamp % 2 == 1 {
            return Some(Again::Odd { rank: 0, stamp });
        }
        if stamp / 2 <= last {
            return Some(Again::Old { stamp, last });
        }
        None
    }

    /// A reading begins at this stamp, where none stands against it.
    fn begin(&mut self, stamp: u64) -> Read
        ensures next { self.new ≡ begins (unfit self.old stamp) self.old stamp }
        ensures told { result ≡ begins_told (unfit self.old stamp) }
    {
        match self.unfit(stamp) {
            Some(again) => {
                self.begun = false;
                Read::Again(again)
            }
            None => {
                self.len = 0;
                self.begun = true;
                self.first = stamp;
                Read::Going
            }
        }
    }

    /// One more word.
    fn take(&mut self, word: u64)
        requires begun { self.old.begun ≡ true }
        requires left { 0 < (part self.old self.old.rank).spare }
        ensures { self.new ≡ reads self.old word }
    {
        self.words[self.len] = word;
        self.len += 1;
    }

    /// The reading ends at this stamp.
    fn end(&mut self, stamp: u64) -> Read
        requires { self.old.begun ≡ true }
        ensures next { self.new ≡ ends self.old stamp }
        ensures told { result ≡ ends_told self.old stamp }
    {
        self.begun = false;
        if stamp == self.first {
            self.last = self.first / 2;
            return Read::Reading { put: self.last };
        }
        Read::Again(Again::Torn {
            rank: 0,
            first: self.first,
            last: stamp,
        })
    }
}
