ghost use Rattle.std.specs.Prelude.{◌≡◌, ◌≤◌, IfOk};
ghost use Rattle.plain_board.specs.Plain.{fresh_board, selected, state, LeavesAll};
ghost use Rattle.window_words.specs.Rule.{Windows};

use crate::fresh::{Sizes, fresh_seats, widest_of};
use crate::seat::PlainSeat;
use std::alloc::{AllocError, Global};
use std::marker::Model;
use window_places::{places_of, zeros};
use window_words::{Board, Meaning};

/// A board on one thread, for the seat that was selected last. Seat 0 is the
/// hub's, and seat `i + 1` owns window `i`.
///
/// Contracts see the meaning, the words, the views of all seats and the number
/// of the selected seat.
#[derive(Drop)]
pub struct PlainBoard<M: Meaning> {
    of: M,
    words: Vec<u64>,
    starts: Vec<usize>,
    seats: Vec<PlainSeat>,
    at: usize,
}

impl<M: Meaning> Model for PlainBoard<M> {
    ghost use Rattle.std.specs.Prelude.{ℕ, List, map};
    ghost use Rattle.window_words.specs.declared.views.View.{View};
    ghost use Rattle.plain_board.specs.Seats.{shown};
    ghost use Rattle.plain_board.specs.Plain.{PlainRule};

    ghost Value = { M × List ℕ × List View × ℕ };

    ghost view = { λ b. (b.of, b.words.items, map shown b.seats.items, b.at) };

    ghost invariant = { λ b. PlainRule M.entry M.wide M.count M.lead M.last
        b.of b.words.items b.starts.items b.seats.items b.at };
}

impl<M: Meaning + Drop> PlainBoard<M> {
    /// A fresh board, with the hub's seat selected. It takes here all the
    /// memory that its calls need.
    pub fn new(alloc: Global, meaning: M) -> Result<PlainBoard<M>, AllocError>
        ensures { IfOk result (λ board. board ≡ fresh_board M.wide M.count meaning) }
    {
        let places = places_of(alloc, &meaning)?;
        let sizes = Sizes {
            windows: meaning.windows(),
            leaders: meaning.leaders(),
            widest: widest_of(&meaning),
            most: meaning.most() as usize,
        };
        let seats = fresh_seats(alloc, sizes)?;
        let words = zeros(alloc, places.words)?;
        Ok(PlainBoard {
            of: meaning,
            words,
            starts: places.starts,
            seats,
            at: 0,
        })
    }
}

impl<M: Meaning> PlainBoard<M> {
    /// Selects a seat, and changes nothing else.
    pub fn select(&mut self, seat: usize)
        requires { seat ≤ M.count self.old.0 }
        ensures { self.new ≡ (self.old.0, self.old.1, self.old.2, seat) }
    {
        self.at = seat;
    }

    /// The rule of the windows holds between any two calls: an even stamp says that its
    /// entry stands whole, what a seat has accepted of a window its owner has closed, and
    /// no follower's window is ahead of a leader's. It does nothing.
    pub fn rule(&self)
        ensures { Windows (M.entry self.now.0) (M.wide self.now.0) (M.count self.now.0)
            (M.lead self.now.0) (M.last self.now.0) self.now.0
            (state self.now.0 self.now.1 self.now.2) }
    {
        let _at = self.at;
    }
}

impl<M: Meaning> Board for PlainBoard<M> {
    type Of = M;

    ghost of = { λ b. b.0 };

    ghost view = { selected };

    ghost leaves = { LeavesAll M.lead M.wide };

    fn open_put(&mut self, entry: u64) {
        let seat = &mut self.seats[self.at];
        let place = self.starts[seat.own_window()];
        self.words[place] = 2 * entry - 1;
        seat.open(entry);
    }

    fn put_word(&mut self, word: u64) {
        let seat = &mut self.seats[self.at];
        let place = self.starts[seat.own_window()] + 1 + seat.put_count();
        self.words[place] = word;
        seat.put();
    }

    fn close_put(&mut self) {
        let seat = &mut self.seats[self.at];
        let place = self.starts[seat.own_window()];
        self.words[place] = 2 * seat.open_entry();
        seat.close();
    }

    fn begin_read(&mut self, window: usize) -> u64 {
        let seat = &mut self.seats[self.at];
        let first = self.words[self.starts[window]];
        seat.begin(window, first);
        first
    }

    fn read_word(&mut self, window: usize) -> u64 {
        let seat = &mut self.seats[self.at];
        let word = self.words[self.starts[window] + 1 + seat.words.len()];
        seat.read(word);
        word
    }

    fn end_read(&mut self, window: usize) -> u64 {
        let leaders = self.of.leaders();
        let seat = &mut self.seats[self.at];
        let last = self.words[self.starts[window]];
        seat.end(leaders, last);
        last
    }

    fn stop(&mut self, last: u64) {
        let seat = &mut self.seats[self.at];
        self.words[0] = last;
        seat.stop(last);
    }

    fn stopped(&mut self) -> u64 {
        self.words[0]
    }
}
