ghost use Rattle.std.specs.Prelude.{◌≡◌, length};
ghost use Rattle.window_tests.specs.Ranks.{IsReadBy, IsRunning};

use crate::tiny::Tiny;
use stamped_read::{Read, StampedReader};
use std::marker::Model;
use table_board::TableSeat;
use window_words::Board;

/// A reader of all leaders' windows at a table's seat. Contracts see how many
/// windows it reads.
#[derive(Drop)]
pub struct Follower<'a> {
    seat: TableSeat<'a, Tiny>,
    reader: StampedReader,
    ranks: usize,
    /// Whether the seat is the hub's, and hasn't stopped.
    runs: bool,
}

impl<'a> Model for Follower<'a> {
    ghost use Rattle.std.specs.Prelude.{ℕ, ◌≡◌, true, length};
    ghost use Rattle.window_tests.specs.Ranks.{IsReadBy, IsRunning};

    ghost Value = { ℕ };

    ghost view = { λ f. f.ranks };

    ghost invariant = { λ f. IsReadBy f.seat f.reader × (length f.reader.parts ≡ f.ranks)
        × (f.runs ≡ true → IsRunning f.seat.2) };
}

impl<'a> Follower<'a> {
    /// A reader of so many windows, at a seat for which it reads.
    pub fn new(seat: TableSeat<'a, Tiny>, reader: StampedReader, ranks: usize) -> Follower<'a>
        requires reads { IsReadBy seat reader }
        requires ranks { length reader.parts ≡ ranks }
        ensures { result ≡ ranks }
    {
        Follower {
            seat,
            reader,
            ranks,
            runs: false,
        }
    }

    /// The same at the hub's seat, which hasn't stopped.
    pub fn at_hub(seat: TableSeat<'a, Tiny>, reader: StampedReader, ranks: usize) -> Follower<'a>
        requires reads { IsReadBy seat reader }
        requires ranks { length reader.parts ≡ ranks }
        requires runs { IsRunning seat.2 }
        ensures { result ≡ ranks }
    {
        Follower {
            seat,
            reader,
            ranks,
            runs: true,
        }
    }

    /// The reader's next step.
    pub fn read(&mut self) -> Read
        ensures { self.new ≡ self.old }
    {
        self.reader.step(&mut self.seat)
    }

    /// What a reading tells where it ends, in at most so many steps.
    pub fn reading(&mut self, steps: usize) -> Read {
        for _ in 0..steps {
            let told = self.read();
            if told != Read::Going {
                return told;
            }
        }
        Read::Going
    }

    /// Stops with this number, which isn't 0, once and at the hub's seat alone.
    pub fn stop(&mut self, last: u64)
        ensures { self.new ≡ self.old }
    {
        if self.runs && last > 0 {
            self.seat.stop(last);
            self.runs = false;
        }
    }

    /// The number with which the hub's seat stopped, and 0 before.
    pub fn stopped(&mut self) -> u64
        ensures { self.new ≡ self.old }
    {
        self.seat.stopped()
    }

    /// The number of the last put that was read whole, and 0 before.
    pub fn last(&self) -> u64 {
        self.reader.last()
    }

    /// The words that the reader has of a rank's part, and none where there is no
    /// such rank.
    pub fn part(&self, rank: usize) -> &[u64] {
        if rank < self.ranks {
            self.reader.part(rank)
        } else {
            &[]
        }
    }
}
