ghost use Rattle.std.specs.Prelude.{◌≤◌, ◌<◌, ◌^◌};

use crate::crew::Crew;
use crate::followers::Follower;
use crate::ranks::Rank;
use crate::table_tests::windows;
use crate::tests::is_part;
use stamped_read::Read;
use std::alloc::Global;
use std::process::Abort;
use std::rt::HostRuntime;
use std::test::Fail;
use std::thread::{self, Threads};
use table_board::TableBoard;

/// How often a reader tries before it gives up.
const TRIES: usize = 1_000_000;

/// A reader of so many windows of one width, how many of its readings were whole,
/// and how many of these had a word of another put.
#[derive(Drop)]
struct Count<'a> {
    follower: Follower<'a>,
    ranks: usize,
    width: usize,
    whole: u32,
    wrong: u32,
}

impl<'a> Count<'a> {
    /// No reading is made.
    fn new(follower: Follower<'a>, ranks: usize, width: usize) -> Count<'a> {
        Count {
            follower,
            ranks,
            width,
            whole: 0,
            wrong: 0,
        }
    }

    /// Whether all words that the reader has are those of this put.
    fn has_words(&self, put: u64) -> bool {
        for rank in 0..self.ranks {
            if !is_part(self.follower.part(rank), rank, put, self.width) {
                return false;
            }
        }
        true
    }

    /// One reading of six words in all.
    fn reading(&mut self) -> Read {
        let told = self.follower.reading(10);
        if let Read::Reading { put } = told {
            self.whole = self.whole.saturating_add(1);
            if !self.has_words(put) {
                self.wrong = self.wrong.saturating_add(1);
            }
        }
        told
    }

    /// So many readings, and then more until one of all was whole.
    fn readings(mut self, count: usize) -> Count<'a> {
        for made in 0..TRIES {
            if made >= count {
                if self.whole > 0 {
                    break;
                }
                thread::yield_now();
            }
            self.reading();
        }
        self
    }

    /// Readings until this put is read, and then the hub's seat stops with its
    /// number.
    fn until_put(mut self, put: u64) -> Count<'a> {
        for _ in 0..TRIES {
            if self.follower.last() >= put {
                break;
            }
            self.reading();
            thread::yield_now();
        }
        let last = self.follower.last();
        self.follower.stop(last);
        self
    }

    /// Readings until the hub's seat has stopped.
    fn until_stopped(mut self) -> Count<'a> {
        for _ in 0..TRIES {
            if self.follower.stopped() > 0 {
                break;
            }
            self.reading();
            thread::yield_now();
        }
        self
    }

    /// All readings so far had the words of their puts. This put, the last, was
    /// read or is read now.
    fn comes_to(&mut self, rt: &impl Abort, put: u64) {
        self.reading();
        assert_eq!(rt; self.follower.last(), put);
        assert!(rt; self.has_words(put));
        assert!(rt; self.whole > 0);
        assert_eq!(rt; self.wrong, 0);
    }
}

/// Writes so many puts, each into one window after the other.
fn write_puts(ranks: &mut [Rank<'_>], width: usize, puts: usize) {
    for _ in 0..puts {
        for rank in ranks.iter_mut() {
            rank.write_on(width.saturating_add(2));
        }
    }
}

/// Keeps a processor busy for so many rounds.
fn busy(rounds: u32) -> u64 {
    let mut sum = 1u64;
    for round in 0..rounds {
        sum = sum
            .wrapping_mul(0x5851_f42d_4c95_7f2d)
            .rotate_left(round % 64);
    }
    sum
}

/// One thread writes, one keeps a processor busy, and two others make 10000
/// readings each, and more until one was whole. Every whole reading has the words
/// of its put; each reader comes to the last put, and then reads one more.
fn beside<R: Threads + Abort + Sync>(
    rt: &R,
    crew: Crew<'_>,
    ranks: usize,
    width: usize,
) -> Result<(), Fail> {
    let Crew {
        ranks: mut writers,
        mut followers,
    } = crew;
    let first = followers.pop().ok_or("a first reader")?;
    let second = followers.pop().ok_or("a second reader")?;
    let first = Count::new(first, ranks, width);
    let second = Count::new(second, ranks, width);
    let ((mut writers, _), (mut first, mut second)) = thread::join(
        rt,
        move || {
            thread::join(
                rt,
                move || {
                    write_puts(writers.as_mut_slice(), width, 5000);
                    writers
                },
                || busy(5_000_000),
            )
        },
        move || {
            thread::join(
                rt,
                move || first.readings(10000),
                move || second.readings(10000),
            )
        },
    );
    let last = writers.first().ok_or("a rank")?.last();
    first.comes_to(rt, last);
    second.comes_to(rt, last);
    write_puts(writers.as_mut_slice(), width, 1);
    let put = last.saturating_add(1);
    assert!(rt; first.reading() == Read::Reading { put });
    assert!(rt; second.reading() == Read::Reading { put });
    first.comes_to(rt, put);
    second.comes_to(rt, put);
    Ok(())
}

/// Ten runs of a writer beside two readers.
fn ten_runs<R: Threads + Abort + Sync>(
    rt: &R,
    alloc: Global,
    ranks: usize,
    width: usize,
) -> Result<(), Fail>
    requires ranks { (0 < ranks) × (ranks ≤ 2) }
    requires small { width < 2 ^ 32 }
{
    for _ in 0..10 {
        let meaning = windows(ranks, width, 1 << 40);
        let mut board = TableBoard::new(alloc, meaning)?;
        let crew = Crew::new(alloc, &mut board, &meaning)?;
        beside(rt, crew, ranks, width)?;
    }
    Ok(())
}

#[test]
fn a_writer_and_two_readers_in_threads(rt: HostRuntime) -> Result<(), Fail> {
    ten_runs(&rt, rt.alloc(), 1, 6)
}

#[test]
fn two_windows_and_two_readers_in_threads(rt: HostRuntime) -> Result<(), Fail> {
    ten_runs(&rt, rt.alloc(), 2, 3)
}

/// A leader's thread writes 100 puts, the hub's reads until it has read the last
/// and stops with its number, and a follower's reads until the hub has stopped.
fn until_the_hub_stops<R: Threads + Abort + Sync>(rt: &R, crew: Crew<'_>) -> Result<(), Fail> {
    let Crew {
        ranks: mut leaders,
        mut followers,
    } = crew;
    let follower = followers.pop().ok_or("a follower")?;
    let hub = followers.pop().ok_or("the hub")?;
    let follower = Count::new(follower, 1, 6);
    let hub = Count::new(hub, 1, 6);
    let (_, (mut hub, mut follower)) = thread::join(
        rt,
        move || {
            write_puts(leaders.as_mut_slice(), 6, 100);
            leaders
        },
        move || {
            thread::join(
                rt,
                move || hub.until_put(100),
                move || follower.until_stopped(),
            )
        },
    );
    hub.comes_to(rt, 100);
    follower.comes_to(rt, 100);
    assert_eq!(rt; hub.follower.stopped(), 100);
    assert_eq!(rt; follower.follower.stopped(), 100);
    Ok(())
}

#[test]
fn a_leader_a_follower_and_the_hub_in_threads(rt: HostRuntime) -> Result<(), Fail> {
    for _ in 0..10 {
        let meaning = windows(1, 6, 100);
        let mut board = TableBoard::new(rt.alloc(), meaning)?;
        let crew = Crew::new(rt.alloc(), &mut board, &meaning)?;
        until_the_hub_stops(&rt, crew)?;
    }
    Ok(())
}
