ghost use Rattle.std.specs.Prelude.{◌≡◌, ℕ, ◌<◌, true, false, map, length, IfOk, IsTrue, ◌↔◌};
ghost use Rattle.std.specs.List.{range_with_len};
ghost use Rattle.window_words.specs.declared.views.View.{View};
ghost use Rattle.stamped_read.specs.Readers.{fresh_reader, fresh_part, part, words_of, window_of};
ghost use Rattle.stamped_read.specs.Readers.{due, unfit, begins, begins_told, reads, restarted, IsReader};
ghost use Rattle.stamped_read.specs.Readers.{follows, follows_told, is_more, ends, ends_told};
ghost use Rattle.stamped_read.specs.Promises.{ReadsFor, Makes, TellsWhole, IsSameGroup};

use crate::part::Part;
use crate::read::{Again, Read};
use std::alloc::{AllocError, Global};
use std::marker::Model;
use window_words::{Board, Meaning};

/// A reader of the leaders' windows, one after another. What it answers is one
/// whole put: an entry of one number of all of them.
#[derive(Drop)]
pub struct StampedReader {
    parts: Vec<Part>,
    rank: usize,
    begun: bool,
    first: u64,
    last: u64,
}

impl Model for StampedReader {
    ghost use Rattle.stamped_read.specs.Readers.{Reader, IsReader};

    ghost Value = { Reader };

    ghost view = { λ a. record {
      window = 0;
      parts = a.parts.items;
      rank = a.rank;
      begun = a.begun;
      first = a.first;
      last = a.last;
    } };

    ghost invariant = { λ a. IsReader record {
      window = 0;
      parts = a.parts.items;
      rank = a.rank;
      begun = a.begun;
      first = a.first;
      last = a.last;
    } };
}

impl StampedReader {
    /// A reader that has read nothing. It takes here all the memory that it
    /// needs.
    pub fn new<M: Meaning>(alloc: Global, of: &M) -> Result<StampedReader, AllocError>
        requires { 0 < M.lead of.now }
        ensures fresh { IfOk result (λ reader. reader
            ≡ fresh_reader 0 (map (fresh_part (M.wide of.now))
            (range_with_len 0 (M.lead of.now)))) }
        ensures reads { IfOk result (λ reader. (v : View) →
            ReadsFor (M.entry of.now) (M.wide of.now) (M.count of.now) v reader) }
    {
        let mut parts = Vec::new(alloc);
        for rank in 0..of.leaders() {
            let part = Part::new(alloc, of.width(rank))?;
            parts.push(part)?;
        }
        Ok(StampedReader {
            parts,
            rank: 0,
            begun: false,
            first: 0,
            last: 0,
        })
    }

    /// The last put that was read whole, and 0 before.
    pub fn last(&self) -> u64
        ensures { result ≡ self.now.last }
    {
        self.last
    }

    /// The words of a rank's part. Where the last step answered a reading, they
    /// are those of its put.
    pub fn part(&self, rank: usize) -> &[u64]
        requires { rank < length self.now.parts }
        ensures { result.now ≡ words_of self.now rank }
    {
        self.parts[rank].words()
    }

    /// Makes the one call of the board that is due.
    pub fn step<B: Board>(&mut self, board: &mut B) -> Read
        requires { ReadsFor (B.Of.entry (B.of board.old)) (B.Of.wide (B.of board.old))
            (B.Of.count (B.of board.old)) (B.view board.old) self.old }
        ensures made { (n : ℕ) × Makes B.leaves B.view (B.Of.lead (B.of board.old))
            board.old board.new self.old self.new result (due self.old) n }
        ensures same { B.of board.new ≡ B.of board.old }
        ensures reads { ReadsFor (B.Of.entry (B.of board.old)) (B.Of.wide (B.of board.old))
            (B.Of.count (B.of board.old)) (B.view board.new) self.new }
        ensures whole { TellsWhole (B.Of.entry (B.of board.old)) (B.Of.last (B.of board.old))
            self.old self.new result }
        ensures group { IsSameGroup self.old self.new }
    {
        let window = self.window();
        if !self.is_begun() {
            let stamp = board.begin_read(window);
            self.begin(stamp)
        } else if self.is_full() {
            let stamp = board.end_read(window);
            self.end(stamp)
        } else {
            let word = board.read_word(window);
            self.take(word);
            Read::Going
        }
    }

    /// The window that is read.
    fn window(&self) -> usize
        ensures window { result ≡ window_of self.now }
        ensures facts { IsReader self.now }
    {
        self.rank
    }

    /// Whether a reading of this window is begun.
    fn is_begun(&self) -> bool
        ensures { result ≡ self.now.begun }
    {
        self.begun
    }

    /// Whether all words of this window are read.
    fn is_full(&self) -> bool
        ensures { IsTrue result ↔ (part self.now self.now.rank).spare ≡ 0 }
    {
        self.parts[self.rank].is_full()
    }

    /// Why no reading begins at this stamp.
    fn unfit(&self, stamp: u64) -> Option<Again>
        ensures { result ≡ unfit self.now stamp }
    {
        if stamp % 2 == 1 {
            return Some(Again::Odd {
                rank: self.rank,
                stamp,
            });
        }
        if self.rank == 0 {
            if stamp / 2 <= self.last {
                return Some(Again::Old {
                    stamp,
                    last: self.last,
                });
            }
            return None;
        }
        if stamp != self.first {
            return Some(Again::Mixed {
                rank: self.rank,
                first: self.first,
                other: stamp,
            });
        }
        None
    }

    /// The next reading begins at the first window.
    fn restart(&mut self)
        ensures { self.new ≡ restarted self.old }
    {
        self.rank = 0;
        self.begun = false;
    }

    /// A reading of the window begins at this stamp, where none stands against
    /// it.
    fn begin(&mut self, stamp: u64) -> Read
        ensures next { self.new ≡ begins (unfit self.old stamp) self.old stamp }
        ensures told { result ≡ begins_told (unfit self.old stamp) }
    {
        match self.unfit(stamp) {
            Some(again) => {
                self.restart();
                Read::Again(again)
            }
            None => {
                self.parts[self.rank].clear();
                self.begun = true;
                self.first = stamp;
                Read::Going
            }
        }
    }

    /// One more word of the window.
    fn take(&mut self, word: u64)
        requires begun { self.old.begun ≡ true }
        requires left { 0 < (part self.old self.old.rank).spare }
        ensures { self.new ≡ reads self.old word }
    {
        self.parts[self.rank].push(word);
    }

    /// The next window follows, or the put is read whole.
    fn follow(&mut self) -> Read
        requires { self.old.begun ≡ true }
        ensures next { self.new ≡ follows (is_more self.old) self.old }
        ensures told { result ≡ follows_told (is_more self.old) self.old }
    {
        self.begun = false;
        if self.rank + 1 < self.parts.len() {
            self.rank += 1;
            return Read::Going;
        }
        self.rank = 0;
        self.last = self.first / 2;
        Read::Reading { put: self.last }
    }

    /// The reading of the window ends at this stamp.
    fn end(&mut self, stamp: u64) -> Read
        requires { self.old.begun ≡ true }
        ensures next { self.new ≡ ends self.old stamp }
        ensures told { result ≡ ends_told self.old stamp }
    {
        if stamp == self.first {
            return self.follow();
        }
        let torn = Again::Torn {
            rank: self.rank,
            first: self.first,
            last: stamp,
        };
        self.restart();
        Read::Again(torn)
    }
}
