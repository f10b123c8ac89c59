//! Seats of a table that go to threads of their own.

ghost use Rattle.std.specs.Prelude.{◌≡◌};
ghost use Rattle.board_tests.specs.Sitting.{IsGiven, WritesNext};
ghost use Rattle.put_read.specs.Reads.{ReadsPuts};

use crate::actors::write_on;
use crate::given::Given;
use put_codec::RunMeaning;
use put_read::PutReader;
use rank_writer::RankWriter;
use sp_model::Run;
use stamped_read::Read;
use std::alloc::{AllocError, Global};
use std::marker::Model;
use table_board::TableSeat;

/// A seat of a table at which a reader reads the puts of a run.
#[derive(Drop)]
pub struct ReadingSeat<'a> {
    run: &'a Run,
    seat: TableSeat<'a, RunMeaning>,
    reader: PutReader,
}

impl<'a> Model for ReadingSeat<'a> {
    ghost use Rattle.std.specs.Prelude.{ℕ};
    ghost use Rattle.board_tests.specs.Desks.{IsReading};

    ghost Value = { ℕ };

    ghost view = { λ s. 0 };

    ghost invariant = { λ s. IsReading s.run.now s.seat s.reader };
}

impl<'a> ReadingSeat<'a> {
    /// A reader at a seat for which it reads.
    pub fn new(
        given: &'a Given,
        seat: TableSeat<'a, RunMeaning>,
        reader: PutReader,
    ) -> ReadingSeat<'a>
        requires given { IsGiven given.now }
        requires of { seat.1 ≡ given.now.of }
        requires reads { ReadsPuts given.now.run seat.2 reader }
    {
        let run = &given.run;
        ReadingSeat { run, seat, reader }
    }

    /// The next step of the reading.
    pub fn step(&mut self) -> Read {
        self.reader.step(&mut self.seat)
    }

    /// The reader forgets what it has read.
    pub fn forget(&mut self, alloc: Global) -> Result<(), AllocError> {
        let reader = PutReader::new(alloc, self.run)?;
        self.reader = reader;
        Ok(())
    }

    /// The words that the reader has of a rank's part, and none where there is no such
    /// rank.
    pub fn part(&self, rank: usize) -> &[u64] {
        if rank < self.reader.layout.ranks {
            self.reader.reader.part(rank)
        } else {
            &[]
        }
    }
}

/// A seat of a table at which a rank writes the puts of a run.
#[derive(Drop)]
pub struct WritingSeat<'a> {
    given: &'a Given,
    seat: TableSeat<'a, RunMeaning>,
    writer: RankWriter,
}

impl<'a> Model for WritingSeat<'a> {
    ghost use Rattle.std.specs.Prelude.{ℕ};
    ghost use Rattle.board_tests.specs.Desks.{IsWriting};

    ghost Value = { ℕ };

    ghost view = { λ s. 0 };

    ghost invariant = { λ s. IsWriting s.given.now s.seat s.writer };
}

impl<'a> WritingSeat<'a> {
    /// A rank at its seat.
    pub fn new(
        given: &'a Given,
        seat: TableSeat<'a, RunMeaning>,
        writer: RankWriter,
    ) -> WritingSeat<'a>
        requires given { IsGiven given.now }
        requires of { seat.1 ≡ given.now.of }
        requires writes { WritesNext given.now.run seat.2 writer }
    {
        WritingSeat {
            given,
            seat,
            writer,
        }
    }

    /// The rank's next step, if it has one.
    pub fn step(&mut self) {
        write_on(self.given, &mut self.writer, &mut self.seat);
    }

    /// The number of the last put that the rank has closed.
    pub fn last(&self) -> u64 {
        self.writer.last
    }
}
