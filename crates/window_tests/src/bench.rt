ghost use Rattle.std.specs.Prelude.{◌≡◌, ◌<◌, ◌≤◌, ◌^◌};

use crate::phases::{counted, read_step, write_step};
use crate::tiny::Tiny;
use plain_board::PlainBoard;
use stamped_read::{Read, StampedReader};
use std::alloc::{AllocError, Global};
use std::marker::Model;

/// One or two ranks that write their windows, and a reader of these at the hub's
/// seat, whose steps may be made in any order.
#[derive(Drop)]
pub struct Bench {
    board: PlainBoard<Tiny>,
    reader: StampedReader,
    /// How many puts each rank has closed.
    lasts: [u64; 2],
    /// How many steps of the next it has made.
    steps: [usize; 2],
    ranks: usize,
    width: usize,
    most: u64,
}

impl Model for Bench {
    ghost use Rattle.std.specs.Prelude.{ℕ};
    ghost use Rattle.window_tests.specs.Phases.{IsBench};

    ghost Value = { ℕ };

    ghost view = { λ a. a.ranks };

    ghost invariant = { λ a. IsBench a.board a.reader a.lasts a.steps a.ranks a.width a.most };
}

impl Bench {
    /// Nothing is written or read. The leaders' windows are the ranks'.
    pub fn new(alloc: Global, meaning: Tiny) -> Result<Bench, AllocError>
        requires leads { 0 < meaning.leaders }
        requires few { meaning.leaders ≤ 2 }
        requires small { meaning.width < 2 ^ 32 }
    {
        let (ranks, width, most) = (meaning.leaders, meaning.width, meaning.most);
        let reader = StampedReader::new(alloc, &meaning)?;
        let board = PlainBoard::new(alloc, meaning)?;
        Ok(Bench {
            board,
            reader,
            lasts: [0; 2],
            steps: [0; 2],
            ranks,
            width,
            most,
        })
    }

    /// A rank's next step, if there is such a rank and it has one.
    pub fn write(&mut self, rank: usize) {
        if rank >= self.ranks {
            return;
        }
        let last = self.lasts[rank];
        if last == self.most {
            return;
        }
        let step = self.steps[rank];
        write_step(&mut self.board, rank, last, self.width, step);
        let (last, step) = counted(self.width, last, step);
        self.lasts[rank] = last;
        self.steps[rank] = step;
    }

    /// The reader's next step.
    pub fn read(&mut self) -> Read {
        read_step(&mut self.board, &mut self.reader)
    }

    /// The words that the reader has of a rank's part, and none where there is no
    /// such rank.
    pub fn part(&self, rank: usize) -> &[u64] {
        if rank < self.ranks {
            self.reader.part(rank)
        } else {
            &[]
        }
    }
}
