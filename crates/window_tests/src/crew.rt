ghost use Rattle.std.specs.Prelude.{◌≡◌, ◌<◌, ◌^◌, true};
ghost use Rattle.window_tests.specs.Ranks.{AreFreshSeats, IsFreshSeat};

use crate::followers::Follower;
use crate::ranks::Rank;
use crate::tiny::Tiny;
use stamped_read::{Read, StampedReader};
use std::alloc::{AllocError, Global};
use table_board::{TableBoard, TableSeat};

/// The seats of a table at work: a rank writes each leader's window, and at every
/// other seat a reader reads these windows, the first at the hub's.
#[derive(Drop)]
pub struct Crew<'a> {
    pub ranks: Vec<Rank<'a>>,
    pub followers: Vec<Follower<'a>>,
}

impl<'a> Crew<'a> {
    /// At a fresh board with this meaning. Nothing is written or read.
    pub fn new(
        alloc: Global,
        board: &'a mut TableBoard<Tiny>,
        meaning: &Tiny,
    ) -> Result<Crew<'a>, AllocError>
        requires fresh { board.old.2 ≡ true }
        requires same { board.old.1 ≡ meaning.now }
        requires leads { 0 < meaning.now.leaders }
        requires small { meaning.now.width < 2 ^ 32 }
    {
        let seats = board.seats(alloc)?;
        let mut crew = Crew {
            ranks: Vec::new(alloc),
            followers: Vec::new(alloc),
        };
        crew.take_all(alloc, meaning, seats.into_vec())?;
        crew.ranks.reverse();
        crew.followers.reverse();
        Ok(crew)
    }

    /// All seats of a fresh board, from the last on.
    fn take_all(
        &mut self,
        alloc: Global,
        meaning: &Tiny,
        mut seats: Vec<TableSeat<'a, Tiny>>,
    ) -> Result<(), AllocError>
        requires seats { AreFreshSeats meaning.now seats.items }
        requires leads { 0 < meaning.now.leaders }
        requires small { meaning.now.width < 2 ^ 32 }
    {
        for _ in 0..seats.len() {
            let Some(seat) = seats.pop() else {
                return Ok(());
            };
            self.take(alloc, meaning, seats.len(), seat)?;
        }
        Ok(())
    }

    /// One more seat of a fresh board, by its place among them: a rank at a
    /// leader's window, and else a reader.
    fn take(
        &mut self,
        alloc: Global,
        meaning: &Tiny,
        place: usize,
        seat: TableSeat<'a, Tiny>,
    ) -> Result<(), AllocError>
        requires seat { IsFreshSeat place meaning.now seat }
        requires leads { 0 < meaning.now.leaders }
        requires small { meaning.now.width < 2 ^ 32 }
    {
        if 0 < place && place <= meaning.leaders {
            let rank = Rank::new(seat, place - 1, meaning.width, meaning.most);
            self.ranks.push(rank)?;
            return Ok(());
        }
        let reader = StampedReader::new(alloc, meaning)?;
        let follower = if place == 0 {
            Follower::at_hub(seat, reader, meaning.leaders)
        } else {
            Follower::new(seat, reader, meaning.leaders)
        };
        self.followers.push(follower)?;
        Ok(())
    }

    /// A rank's next step, if there is such a rank and it has one.
    pub fn write(&mut self, rank: usize) {
        if let Some(rank) = self.ranks.get_mut(rank) {
            rank.write();
        }
    }

    /// The next step of the first reader.
    pub fn read(&mut self) -> Read {
        match self.followers.get_mut(0) {
            Some(follower) => follower.read(),
            None => Read::Going,
        }
    }

    /// The words that the first reader has of a rank's part.
    pub fn part(&self, rank: usize) -> &[u64] {
        match self.followers.first() {
            Some(follower) => follower.part(rank),
            None => &[],
        }
    }
}
