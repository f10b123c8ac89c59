ghost use Rattle.std.specs.Prelude.{◌≡◌, ◌<◌, ◌≤◌, ◌+◌, ◌^◌};
ghost use Rattle.window_tests.specs.Phases.{HasPut, IsPutting, WritesAt};
ghost use Rattle.window_tests.specs.Ranks.{IsLeaderSeat, IsSameSeat, IsFreshRank, IsRunning};

use crate::phases::counted;
use crate::tiny::{Tiny, word_at};
use std::marker::Model;
use table_board::TableSeat;
use window_words::Board;

/// Opens the entry after `last`.
fn open_at(seat: &mut TableSeat<'_, Tiny>, window: usize, last: u64)
    requires leads { IsLeaderSeat window (last + 1) seat.old }
    requires put { HasPut window last seat.old.2 }
    ensures putting { IsPutting window last 0 seat.new.2 }
    ensures same { IsSameSeat seat.old seat.new }
{
    seat.open_put(last + 1);
}

/// Puts the next word of the entry after `last`.
fn put_at(seat: &mut TableSeat<'_, Tiny>, window: usize, last: u64, count: usize)
    requires leads { IsLeaderSeat window (last + 1) seat.old }
    requires more { count < seat.old.1.width }
    requires putting { IsPutting window last count seat.old.2 }
    ensures putting { IsPutting window last (count + 1) seat.new.2 }
    ensures same { IsSameSeat seat.old seat.new }
{
    seat.put_word(word_at(window, last + 1, count));
}

/// Closes the entry after `last`.
fn close_at(seat: &mut TableSeat<'_, Tiny>, window: usize, last: u64)
    requires leads { IsLeaderSeat window (last + 1) seat.old }
    requires putting { IsPutting window last seat.old.1.width seat.old.2 }
    ensures put { HasPut window (last + 1) seat.new.2 }
    ensures same { IsSameSeat seat.old seat.new }
{
    seat.close_put();
}

/// The next step of the put of the entry after `last`.
fn write_at(seat: &mut TableSeat<'_, Tiny>, window: usize, last: u64, width: usize, step: usize)
    requires leads { IsLeaderSeat window (last + 1) seat.old }
    requires width { width ≡ seat.old.1.width }
    requires step { step < width + 2 }
    requires writes { WritesAt width window last step seat.old.2 }
    ensures writes { WritesAt width window last (step + 1) seat.new.2 }
    ensures same { IsSameSeat seat.old seat.new }
{
    if step == 0 {
        open_at(seat, window, last);
    } else if step <= width {
        put_at(seat, window, last, step - 1);
    } else {
        close_at(seat, window, last);
    }
}

/// A rank at the seat of its window.
#[derive(Drop)]
pub struct Rank<'a> {
    seat: TableSeat<'a, Tiny>,
    window: usize,
    width: usize,
    most: u64,
    /// How many puts are closed, and how many steps of the next are made.
    last: u64,
    step: usize,
    /// Whether the seat is the hub's too, and hasn't stopped.
    runs: bool,
}

impl<'a> Model for Rank<'a> {
    ghost use Rattle.std.specs.Prelude.{ℕ};
    ghost use Rattle.window_tests.specs.Ranks.{IsRank};

    ghost Value = { ℕ };

    ghost view = { λ r. r.window };

    ghost invariant = { λ r. IsRank r.seat r.window r.width r.most r.last r.step r.runs };
}

impl<'a> Rank<'a> {
    /// A rank that has put nothing, with the width and the last entry of its
    /// meaning.
    pub fn new(seat: TableSeat<'a, Tiny>, window: usize, width: usize, most: u64) -> Rank<'a>
        requires { IsFreshRank window width most seat }
        ensures { result ≡ window }
    {
        Rank {
            seat,
            window,
            width,
            most,
            last: 0,
            step: 0,
            runs: false,
        }
    }

    /// The same at a seat that is the hub's too, and hasn't stopped.
    pub fn at_hub(seat: TableSeat<'a, Tiny>, window: usize, width: usize, most: u64) -> Rank<'a>
        requires fresh { IsFreshRank window width most seat }
        requires runs { IsRunning seat.2 }
        ensures { result ≡ window }
    {
        Rank {
            seat,
            window,
            width,
            most,
            last: 0,
            step: 0,
            runs: true,
        }
    }

    /// Stops with this number, which isn't 0, once and at the hub's seat alone.
    pub fn stop(&mut self, last: u64)
        ensures { self.new ≡ self.old }
    {
        if self.runs && last > 0 {
            self.seat.stop(last);
            self.runs = false;
        }
    }

    /// The number of the last entry that is closed.
    pub fn last(&self) -> u64 {
        self.last
    }

    /// So many of the rank's next steps.
    pub fn write_on(&mut self, steps: usize) {
        for _ in 0..steps {
            self.write();
        }
    }

    /// The rank's next step, if it has one.
    pub fn write(&mut self)
        ensures { self.new ≡ self.old }
    {
        let (last, width, step) = (self.last, self.width, self.step);
        if last == self.most {
            return;
        }
        write_at(&mut self.seat, self.window, last, width, step);
        let (last, step) = counted(width, last, step);
        self.last = last;
        self.step = step;
    }
}
