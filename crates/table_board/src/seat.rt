ghost use Rattle.std.specs.Prelude.{◌≡◌, ◌<◌, true, None};
ghost use Rattle.window_words.specs.Seating.{dealing_view, one_more_dealt, next_owner, united};
ghost use Rattle.table_board.specs.Tables.{AreStarts, IsFirst};
ghost use Rattle.table_board.specs.Seats.{Leaves};

use crate::rule::{
    AskHub, BeginRead, ClosePut, Deal, EndRead, OpenPut, PutWord, ReadWord, Ruled, StopHub, TakeIn,
};
use atomic_table::{Seat, Shared};
use std::marker::Model;
use window_words::{Board, Known, Meaning};

/// One seat of a table, which may go to a thread of its own. Each call is one
/// atomic step on one word: it takes no lock and no memory, and waits for nobody.
///
/// Contracts see which table it is, the meaning, and what the seat knows.
#[derive(Drop)]
pub struct TableSeat<'a, M: Meaning> {
    table: &'a Shared<u8, Known<M>, M, Ruled<M>>,
    seat: Seat<u8, Known<M>>,
    of: &'a M,
    starts: &'a [usize],
    /// The first window that the seat owns.
    window: Option<usize>,
    /// The entry that is open, and how many of its words are put.
    entry: u64,
    put: usize,
    /// How many words of the reading that was begun are read.
    read: usize,
}

impl<'a, M: Meaning> Model for TableSeat<'a, M> {
    ghost use Rattle.atomic_table.specs.Seated.{TableId};
    ghost use Rattle.window_words.specs.declared.views.View.{View};
    ghost use Rattle.table_board.specs.Seats.{Sits};

    ghost Value = { TableId × M × View };

    ghost view = { λ s. (s.seat.table_id, s.of.now, s.seat.me.0.view) };

    ghost invariant = { λ s. Sits M.wide M.count M.last s.table.now.table_id s.table.now.key
        s.seat.table_id s.seat.me s.of.now s.starts.now s.window s.entry s.put s.read };
}

impl<'a, M: Meaning> TableSeat<'a, M> {
    /// The first seat of a table: the hub's, with no window handed out.
    pub(crate) fn first(
        table: &'a Shared<u8, Known<M>, M, Ruled<M>>,
        seat: Seat<u8, Known<M>>,
        of: &'a M,
        starts: &'a [usize],
    ) -> TableSeat<'a, M>
        requires first { IsFirst table.now.table_id of.now (M.count of.now) seat }
        requires key { table.now.key ≡ of.now }
        requires starts { AreStarts (M.wide of.now) (M.count of.now) starts.now
            table.now.table_id.words }
        ensures { result ≡ (
          table.entry.now.table_id,
          of.entry.now,
          dealing_view (M.count of.entry.now) 0,
        ) }
    {
        TableSeat {
            table,
            seat,
            of,
            starts,
            window: None,
            entry: 0,
            put: 0,
            read: 0,
        }
    }

    /// Hands out the next window: a new seat owns it, and the hub's seat counts it.
    pub(crate) fn deal(&mut self, window: usize) -> TableSeat<'a, M>
        requires hub { self.old.2.hub ≡ true }
        requires next { window ≡ self.old.2.dealt }
        requires left { window < M.count self.old.1 }
        ensures hub { self.new ≡ (self.old.0, self.old.1, one_more_dealt self.old.2) }
        ensures owner { result ≡ (self.old.0, self.old.1, next_owner self.old.2) }
    {
        let seat = self.table.split_seat::<Deal>(&mut self.seat);
        TableSeat {
            table: self.table,
            seat,
            of: self.of,
            starts: self.starts,
            window: Some(window),
            entry: 0,
            put: 0,
            read: 0,
        }
    }

    /// Ends two seats in one, which owns and has accepted what both did, and is
    /// the hub's where either was. What either was reading is dropped.
    pub fn join(self, other: TableSeat<'a, M>) -> TableSeat<'a, M>
        requires table { (other.0 ≡ self.0) × (other.1 ≡ self.1) }
        requires free { (self.2.pending ≡ None) × (other.2.pending ≡ None) }
        ensures { result ≡ (
          self.entry.0,
          self.entry.1,
          united (M.lead self.entry.1) self.entry.2 other.entry.2,
        ) }
    {
        let TableSeat {
            table,
            mut seat,
            of,
            starts,
            window,
            ..
        } = self;
        let TableSeat {
            seat: second,
            window: others,
            ..
        } = other;
        table.join_seat::<TakeIn<M>>(&mut seat, second);
        TableSeat {
            table,
            seat,
            of,
            starts,
            window: window.or(others),
            entry: 0,
            put: 0,
            read: 0,
        }
    }
}

impl<'a, M: Meaning> Board for TableSeat<'a, M> {
    type Of = M;

    ghost of = { λ s. s.1 };

    ghost view = { λ s. s.2 };

    ghost leaves = { Leaves M.lead };

    fn open_put(&mut self, entry: u64) {
        let starts = self.starts;
        let place = starts[self.window.unwrap_or(0)];
        self.table
            .store::<OpenPut>(&mut self.seat, place, 2 * entry - 1);
        self.entry = entry;
        self.put = 0;
    }

    fn put_word(&mut self, word: u64) {
        let starts = self.starts;
        let place = starts[self.window.unwrap_or(0)] + 1 + self.put;
        self.table.store::<PutWord>(&mut self.seat, place, word);
        self.put += 1;
    }

    fn close_put(&mut self) {
        let starts = self.starts;
        let place = starts[self.window.unwrap_or(0)];
        self.table
            .store::<ClosePut>(&mut self.seat, place, 2 * self.entry);
    }

    fn begin_read(&mut self, window: usize) -> u64 {
        let starts = self.starts;
        let place = starts[window];
        let first = self.table.load::<BeginRead<M>>(&mut self.seat, place);
        self.read = 0;
        first
    }

    fn read_word(&mut self, window: usize) -> u64 {
        let starts = self.starts;
        let place = starts[window] + 1 + self.read;
        let word = self.table.load::<ReadWord>(&mut self.seat, place);
        self.read += 1;
        word
    }

    fn end_read(&mut self, window: usize) -> u64 {
        let starts = self.starts;
        let place = starts[window];
        self.table.load::<EndRead<M>>(&mut self.seat, place)
    }

    fn stop(&mut self, last: u64) {
        self.table.store::<StopHub>(&mut self.seat, 0, last);
    }

    fn stopped(&mut self) -> u64 {
        self.table.load::<AskHub>(&mut self.seat, 0)
    }
}
