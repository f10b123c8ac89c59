ghost use Rattle.std.specs.Prelude.{◌≡◌, ◌<◌, IsTrue};
ghost use Rattle.window_tests.specs.Words.{words_at};

use crate::bench::Bench;
use crate::stops::stop_told;
use crate::tiny::{Tiny, word_at};
use plain_board::PlainBoard;
use stamped_read::{Again, Read, ReplyReader};
use std::alloc::{AllocError, Global};
use std::process::Abort;
use std::rt::HostRuntime;
use std::test::Fail;

/// The windows of two ranks, with entries of so many words and up to three puts.
pub fn two_ranks(width: usize) -> Tiny
    ensures { (result.windows ≡ 2) × (result.leaders ≡ 2) × (result.width ≡ width) }
{
    Tiny {
        windows: 2,
        leaders: 2,
        width,
        most: 3,
    }
}

/// Both ranks' windows with put 1, whose parts have two words.
fn with_put(alloc: Global) -> Result<Bench, AllocError> {
    let mut bench = Bench::new(alloc, two_ranks(2))?;
    for step in 0..8 {
        bench.write(step / 4);
    }
    Ok(bench)
}

/// What the last of so many steps of the reader tells.
fn read_on(bench: &mut Bench, steps: usize) -> Read {
    let mut told = Read::Going;
    for _ in 0..steps {
        told = bench.read();
    }
    told
}

/// Whether these are the words of a rank's part of a put.
pub fn is_part(words: &[u64], rank: usize, put: u64, width: usize) -> bool
    ensures { IsTrue result → words.now ≡ words_at width rank put }
{
    for place in 0..words.len() {
        if words[place] != word_at(rank, put, place) {
            return false;
        }
    }
    words.len() == width
}

/// Whether the words that the reader has of a rank's part are those of this put.
fn has_words(bench: &Bench, rank: usize, put: u64, width: usize) -> bool {
    is_part(bench.part(rank), rank, put, width)
}

/// What a reader tells that made so many steps before a rank opened put 2.
fn torn_after(made: usize) -> Read {
    let rank = made / 4;
    if made % 4 == 0 {
        return Read::Again(Again::Odd { rank, stamp: 3 });
    }
    Read::Again(Again::Torn {
        rank,
        first: 2,
        last: 3,
    })
}

#[test]
fn torn_at_every_word(rt: HostRuntime) -> Result<(), Fail> {
    for made in 0..8 {
        let mut bench = with_put(rt.alloc())?;
        let told = read_on(&mut bench, made);
        assert!(rt; told == Read::Going);
        bench.write(made / 4);
        let left = if made % 4 == 0 { 1 } else { 4 - made % 4 };
        let told = read_on(&mut bench, left);
        assert!(rt; told == torn_after(made));
    }
    Ok(())
}

#[test]
fn a_put_beside_a_later_one(rt: HostRuntime) -> Result<(), Fail> {
    let mut bench = with_put(rt.alloc())?;
    read_on(&mut bench, 4);
    for _ in 0..4 {
        bench.write(1);
    }
    let mixed = Again::Mixed {
        rank: 1,
        first: 2,
        other: 4,
    };
    assert!(rt; bench.read() == Read::Again(mixed));
    Ok(())
}

#[test]
fn a_put_read_twice(rt: HostRuntime) -> Result<(), Fail> {
    let mut bench = with_put(rt.alloc())?;
    assert!(rt; read_on(&mut bench, 8) == Read::Reading { put: 1 });
    assert!(rt; has_words(&bench, 0, 1, 2) && has_words(&bench, 1, 1, 2));
    assert!(rt; bench.read() == Read::Again(Again::Old { stamp: 2, last: 1 }));
    Ok(())
}

#[test]
fn a_put_that_is_begun(rt: HostRuntime) -> Result<(), Fail> {
    let mut bench = Bench::new(rt.alloc(), two_ranks(2))?;
    assert!(rt; bench.read() == Read::Again(Again::Old { stamp: 0, last: 0 }));
    bench.write(0);
    assert!(rt; bench.read() == Read::Again(Again::Odd { rank: 0, stamp: 1 }));
    Ok(())
}

#[test]
fn a_stop_that_all_seats_see(rt: HostRuntime) -> Result<(), Fail> {
    let told = stop_told(rt.alloc(), two_ranks(2), 5)?;
    assert!(rt; told == [0, 5, 5]);
    Ok(())
}

#[test]
fn a_reply_that_is_not_there(rt: HostRuntime) -> Result<(), Fail> {
    let meaning = Tiny {
        windows: 2,
        leaders: 1,
        width: 3,
        most: 3,
    };
    let mut board = PlainBoard::new(rt.alloc(), meaning)?;
    let mut reader = ReplyReader::new(1);
    let told = reader.step(&mut board);
    assert!(rt; told == Read::Again(Again::Old { stamp: 0, last: 0 }));
    Ok(())
}

/// A rank's stamp after so many steps of put 2 into both windows, three for each,
/// the first rank's before the second's.
fn stamp_after(rank: usize, made: usize) -> u64
    requires { rank < 2 }
{
    match made.saturating_sub(3 * rank) {
        0 => 2,
        1 | 2 => 3,
        _ => 4,
    }
}

/// How many steps of a put were made when each of the reader's six steps came.
#[derive(Drop)]
struct Order {
    made: usize,
    read: usize,
    at: [usize; 6],
}

impl Order {
    /// The put's next step, if it has one.
    fn write(&mut self, bench: &mut Bench) {
        if self.made < 6 {
            bench.write(self.made / 3);
            self.made += 1;
        }
    }

    /// The reader's next step, and what it tells, while it has made fewer than
    /// six.
    fn read(&mut self, bench: &mut Bench, told: Read) -> Read {
        if self.read < 6 {
            self.at[self.read] = self.made;
            self.read += 1;
            return bench.read();
        }
        told
    }

    /// The number of the put that stood whole in both windows, with one stamp, at
    /// the two loads of each stamp, or 0.
    fn whole(&self) -> u64 {
        let [first, _, second, third, _, fourth] = self.at;
        let stamp = stamp_after(0, first);
        let is_one = stamp == stamp_after(0, second)
            && stamp == stamp_after(1, third)
            && stamp == stamp_after(1, fourth);
        if is_one && stamp % 2 == 0 {
            stamp / 2
        } else {
            0
        }
    }
}

/// Put 1 stands in both windows, with one word for each rank. Then put 2 and a
/// reading go beside each other in the order of the bits, where 1 is a step of the
/// put. What is read is a put exactly where one stood whole at all loads of stamps,
/// and then it is that one.
fn in_order(rt: &impl Abort, alloc: Global, bits: u32) -> Result<(), AllocError> {
    let mut bench = Bench::new(alloc, two_ranks(1))?;
    for step in 0..6 {
        bench.write(step / 3);
    }
    let mut order = Order {
        made: 0,
        read: 0,
        at: [0; 6],
    };
    let mut told = Read::Going;
    for step in 0..12u32 {
        if (bits >> step) % 2 == 1 {
            order.write(&mut bench);
        } else {
            told = order.read(&mut bench, told);
        }
    }
    if order.read == 6 {
        let put = order.whole();
        let is_read = matches!(told, Read::Reading { .. });
        assert!(rt; is_read == (put > 0));
        if is_read {
            assert!(rt; told == Read::Reading { put });
            assert!(rt; has_words(&bench, 0, put, 1) && has_words(&bench, 1, put, 1));
        }
    }
    Ok(())
}

#[test]
fn every_order(rt: HostRuntime) -> Result<(), Fail> {
    for bits in 0..4096 {
        in_order(&rt, rt.alloc(), bits)?;
    }
    Ok(())
}
