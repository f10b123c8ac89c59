ghost use Rattle.std.specs.Prelude.{◌≡◌, ◌≤◌, ◌<◌, ◌+◌, ◌^◌, true};

use crate::bench::Bench;
use crate::crew::Crew;
use crate::pairs::Pair;
use crate::tests::is_part;
use crate::tiny::Tiny;
use stamped_read::{Again, Read};
use std::alloc::{AllocError, Global};
use std::process::Abort;
use std::rt::HostRuntime;
use std::test::Fail;
use table_board::TableBoard;

/// The windows of one rank or two with entries of so many words, and a window
/// that isn't a leader's.
pub fn windows(ranks: usize, width: usize, most: u64) -> Tiny
    requires { (0 < ranks) × (ranks ≤ 2) × (most < 2 ^ 62) }
    ensures { (result.windows ≡ ranks + 1) × (result.leaders ≡ ranks) × (result.width ≡ width) }
{
    Tiny {
        windows: ranks + 1,
        leaders: ranks,
        width,
        most,
    }
}

/// A board on one thread and a table, on which the same steps are made.
#[derive(Drop)]
struct Boards<'a> {
    bench: Bench,
    crew: Crew<'a>,
}

impl<'a> Boards<'a> {
    /// Both are fresh.
    fn new(
        alloc: Global,
        board: &'a mut TableBoard<Tiny>,
        meaning: Tiny,
    ) -> Result<Boards<'a>, AllocError>
        requires fresh { board.old.2 ≡ true }
        requires same { board.old.1 ≡ meaning }
        requires leads { (0 < meaning.leaders) × (meaning.leaders ≤ 2) }
        requires small { meaning.width < 2 ^ 32 }
    {
        let crew = Crew::new(alloc, board, &meaning)?;
        let bench = Bench::new(alloc, meaning)?;
        Ok(Boards { bench, crew })
    }

    /// So many of a rank's next steps.
    fn write(&mut self, rank: usize, steps: usize) {
        for _ in 0..steps {
            self.bench.write(rank);
            self.crew.write(rank);
        }
    }

    /// The reader's next step. It tells the same on both, and the words of a put
    /// that is read are the same.
    fn read(&mut self, rt: &impl Abort) -> Read {
        let told = self.bench.read();
        assert!(rt; told == self.crew.read());
        if matches!(told, Read::Reading { .. }) {
            assert!(rt; self.bench.part(0) == self.crew.part(0));
            assert!(rt; self.bench.part(1) == self.crew.part(1));
        }
        told
    }

    /// What the last of so many steps of the reader tells.
    fn read_on(&mut self, rt: &impl Abort, steps: usize) -> Read {
        let mut told = Read::Going;
        for _ in 0..steps {
            told = self.read(rt);
        }
        told
    }
}

#[test]
fn a_hub_that_took_in_a_rank(rt: HostRuntime) -> Result<(), Fail> {
    let meaning = windows(1, 6, 3);
    let mut board = TableBoard::new(rt.alloc(), meaning)?;
    let pair = Pair::new(rt.alloc(), &mut board, &meaning)?.ok_or("three seats")?;
    let Pair {
        mut rank,
        mut follower,
    } = pair;
    assert_eq!(rt; follower.stopped(), 0);
    rank.write_on(8);
    assert!(rt; follower.reading(8) == Read::Reading { put: 1 });
    assert!(rt; is_part(follower.part(0), 0, 1, 6));
    rank.stop(5);
    assert_eq!(rt; follower.stopped(), 5);
    rank.write_on(8);
    assert!(rt; follower.reading(8) == Read::Reading { put: 2 });
    Ok(())
}

#[test]
fn two_puts_read_whole(rt: HostRuntime) -> Result<(), Fail> {
    let meaning = windows(1, 6, 3);
    let mut board = TableBoard::new(rt.alloc(), meaning)?;
    let mut boards = Boards::new(rt.alloc(), &mut board, meaning)?;
    for put in 1..3 {
        boards.write(0, 8);
        assert!(rt; boards.read_on(&rt, 8) == Read::Reading { put });
    }
    Ok(())
}

#[test]
fn a_put_opened_during_a_reading(rt: HostRuntime) -> Result<(), Fail> {
    let meaning = windows(1, 6, 3);
    let mut board = TableBoard::new(rt.alloc(), meaning)?;
    let mut boards = Boards::new(rt.alloc(), &mut board, meaning)?;
    boards.write(0, 8);
    boards.read_on(&rt, 4);
    boards.write(0, 1);
    let torn = Again::Torn {
        rank: 0,
        first: 2,
        last: 3,
    };
    assert!(rt; boards.read_on(&rt, 4) == Read::Again(torn));
    Ok(())
}

#[test]
fn parts_of_two_puts(rt: HostRuntime) -> Result<(), Fail> {
    let meaning = windows(2, 3, 3);
    let mut board = TableBoard::new(rt.alloc(), meaning)?;
    let mut boards = Boards::new(rt.alloc(), &mut board, meaning)?;
    boards.write(0, 5);
    boards.write(1, 10);
    let mixed = Again::Mixed {
        rank: 1,
        first: 2,
        other: 4,
    };
    assert!(rt; boards.read_on(&rt, 6) == Read::Again(mixed));
    Ok(())
}

/// The same steps on both boards, in the order of the bits, where 1 is a step of
/// put 2 and 0 one of a reading: put 1 stands in both windows before.
fn in_order(rt: &impl Abort, alloc: Global, bits: u32) -> Result<(), AllocError> {
    let meaning = windows(2, 1, 3);
    let mut board = TableBoard::new(alloc, meaning)?;
    let mut boards = Boards::new(alloc, &mut board, meaning)?;
    boards.write(0, 3);
    boards.write(1, 3);
    let mut made = 0u32;
    for step in 0..12u32 {
        if (bits >> step) % 2 == 1 {
            boards.write(if made < 3 { 0 } else { 1 }, 1);
            made = made.saturating_add(1);
        } else {
            boards.read(rt);
        }
    }
    Ok(())
}

#[test]
fn every_order_on_both_boards(rt: HostRuntime) -> Result<(), Fail> {
    for bits in 0..4096 {
        in_order(&rt, rt.alloc(), bits)?;
    }
    Ok(())
}
