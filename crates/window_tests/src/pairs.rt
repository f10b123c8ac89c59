ghost use Rattle.std.specs.Prelude.{◌≡◌, ◌<◌, ◌^◌, true};

use crate::followers::Follower;
use crate::ranks::Rank;
use crate::tiny::Tiny;
use stamped_read::StampedReader;
use std::alloc::{AllocError, Global};
use table_board::TableBoard;

/// A rank at the hub's seat of a fresh board, which took in the seat of the rank's
/// window, and a reader at the other window's seat.
#[derive(Drop)]
pub struct Pair<'a> {
    pub rank: Rank<'a>,
    pub follower: Follower<'a>,
}

impl<'a> Pair<'a> {
    /// Of a board of two windows, one of which is a leader's.
    pub fn new(
        alloc: Global,
        board: &'a mut TableBoard<Tiny>,
        meaning: &Tiny,
    ) -> Result<Option<Pair<'a>>, AllocError>
        requires fresh { board.old.2 ≡ true }
        requires same { board.old.1 ≡ meaning.now }
        requires windows { (meaning.now.windows ≡ 2) × (meaning.now.leaders ≡ 1) }
        requires small { meaning.now.width < 2 ^ 32 }
    {
        let seats = board.seats(alloc)?;
        let mut seats = seats.into_vec();
        let Some(last) = seats.pop() else {
            return Ok(None);
        };
        let Some(owner) = seats.pop() else {
            return Ok(None);
        };
        let Some(hub) = seats.pop() else {
            return Ok(None);
        };
        let rank = Rank::at_hub(hub.join(owner), 0, meaning.width, meaning.most);
        let reader = StampedReader::new(alloc, meaning)?;
        let follower = Follower::new(last, reader, meaning.leaders);
        Ok(Some(Pair { rank, follower }))
    }
}
