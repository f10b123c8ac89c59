ghost use Rattle.board_tests.specs.Sitting.{IsGiven};

use crate::given::Given;
use crate::small::small_run;
use crate::solo::{ReadingSeat, WritingSeat};
use crate::table::{Seated, TableDesk};
use stamped_read::Read;
use std::alloc::{AllocError, Global};
use std::process::Abort;
use std::rt::HostRuntime;
use std::test::Fail;
use std::thread::{self, Threads};
use table_board::TableBoard;

/// How many readings each reader makes beside the writer.
const READINGS: u32 = 5000;

/// How many it makes at most, where none of them is accepted.
const TRIES: u32 = 1_000_000;

/// A reader of puts at its seat beside the words of each put, how many readings it made,
/// how many of them were accepted, and how many of these had other words than their puts.
#[derive(Drop)]
struct Tally<'a> {
    seat: ReadingSeat<'a>,
    words: &'a [Vec<Vec<u64>>],
    made: u32,
    whole: u32,
    wrong: u32,
}

impl<'a> Tally<'a> {
    /// No reading is made.
    fn new(seat: ReadingSeat<'a>, words: &'a [Vec<Vec<u64>>]) -> Tally<'a> {
        Tally {
            seat,
            words,
            made: 0,
            whole: 0,
            wrong: 0,
        }
    }

    /// Whether the words that the reader has are those of this put.
    fn has_words(&self, put: u64) -> bool {
        let Some(parts) = self.words.get(put.saturating_sub(1) as usize) else {
            return false;
        };
        for rank in 0..parts.len() {
            if self.seat.part(rank) != parts[rank].as_slice() {
                return false;
            }
        }
        true
    }

    /// What a reading of all ranks' windows tells where it ends.
    fn told(&mut self, alloc: Global) -> Result<Read, AllocError> {
        self.seat.forget(alloc)?;
        let mut told = Read::Going;
        for _ in 0..10 {
            if told == Read::Going {
                told = self.seat.step();
            }
        }
        Ok(told)
    }

    /// One reading.
    fn reading(&mut self, alloc: Global) -> Result<Read, AllocError> {
        let told = self.told(alloc)?;
        if let Read::Reading { put } = told {
            self.whole = self.whole.saturating_add(1);
            if !self.has_words(put) {
                self.wrong = self.wrong.saturating_add(1);
            }
        }
        Ok(told)
    }

    /// So many readings, and then more until one was accepted, as far as no memory is
    /// refused.
    fn readings(mut self, alloc: Global, count: u32) -> Tally<'a> {
        for made in 0..TRIES {
            if made >= count {
                if self.whole > 0 {
                    break;
                }
                thread::yield_now();
            }
            if self.reading(alloc).is_err() {
                break;
            }
            self.made = self.made.saturating_add(1);
        }
        self
    }

    /// All readings were made, one was accepted, and none had other words than its put. One
    /// more accepts this put.
    fn comes_to(&mut self, rt: &impl Abort, alloc: Global, put: u64) -> Result<(), AllocError> {
        assert!(rt; self.made >= READINGS);
        assert!(rt; self.whole > 0);
        let told = self.reading(alloc)?;
        assert!(rt; told == Read::Reading { put });
        assert_eq!(rt; self.wrong, 0);
        Ok(())
    }
}

/// Keeps a processor busy for so many rounds.
fn busy(rounds: u32) -> u64 {
    let mut sum = 1u64;
    for round in 0..rounds {
        sum = sum
            .wrapping_mul(0x5851_f42d_4c95_7f2d)
            .rotate_left(round % 64);
    }
    sum
}

/// So many steps of each rank, with a little time behind each.
fn write_on(mut ranks: Vec<WritingSeat<'_>>, steps: usize) -> Vec<WritingSeat<'_>> {
    for _ in 0..steps {
        for rank in ranks.iter_mut() {
            rank.step();
            busy(20000);
        }
    }
    ranks
}

/// The seat of the reader that is the last of some seats.
fn reading<'a>(seats: &mut Vec<Seated<'a>>) -> Option<ReadingSeat<'a>> {
    match seats.pop() {
        Some(seated) => seated.into_reading(),
        None => None,
    }
}

/// The seats of the ranks among some seats.
fn writing<'a>(alloc: Global, seats: Vec<Seated<'a>>) -> Result<Vec<WritingSeat<'a>>, AllocError> {
    let mut ranks = Vec::new(alloc);
    for seated in seats {
        if let Some(rank) = seated.into_writing() {
            ranks.push(rank)?;
        }
    }
    Ok(ranks)
}

/// The ranks of a table, and two readers.
#[derive(Drop)]
struct Crew<'a> {
    ranks: Vec<WritingSeat<'a>>,
    first: Tally<'a>,
    second: Tally<'a>,
}

impl<'a> Crew<'a> {
    /// Of the seats of the hub, the ranks, the spoke and two readers. Nobody sits at the
    /// hub's and the spoke's any more.
    fn new(
        alloc: Global,
        mut seats: Vec<Seated<'a>>,
        words: &'a [Vec<Vec<u64>>],
    ) -> Result<Option<Crew<'a>>, AllocError> {
        let Some(second) = reading(&mut seats) else {
            return Ok(None);
        };
        let Some(first) = reading(&mut seats) else {
            return Ok(None);
        };
        Ok(Some(Crew {
            ranks: writing(alloc, seats)?,
            first: Tally::new(first, words),
            second: Tally::new(second, words),
        }))
    }

    /// One thread makes so many steps of each rank, one keeps a processor busy, and two
    /// others make the readings.
    fn beside<R: Threads + Sync>(self, rt: &R, alloc: Global, steps: usize) -> Crew<'a> {
        let Crew {
            ranks,
            first,
            second,
        } = self;
        let ((ranks, _), (first, second)) = thread::join(
            rt,
            move || thread::join(rt, move || write_on(ranks, steps), || busy(10_000_000)),
            move || {
                thread::join(
                    rt,
                    move || first.readings(alloc, READINGS),
                    move || second.readings(alloc, READINGS),
                )
            },
        );
        Crew {
            ranks,
            first,
            second,
        }
    }

    /// Each rank has closed this put, and each reader comes to it.
    fn comes_to(&mut self, rt: &impl Abort, alloc: Global, put: u64) -> Result<(), AllocError> {
        for rank in self.ranks.iter() {
            assert_eq!(rt; rank.last(), put);
        }
        self.first.comes_to(rt, alloc, put)?;
        self.second.comes_to(rt, alloc, put)
    }
}

/// A fresh table, at which the ranks write all puts of so many steps beside the readers.
fn one_run<R: Threads + Abort + Sync>(
    rt: &R,
    alloc: Global,
    given: &Given,
    words: &[Vec<Vec<u64>>],
    steps: usize,
) -> Result<(), Fail>
    requires { IsGiven given.now }
{
    let mut board = TableBoard::new(alloc, given.meaning())?;
    let desk = TableDesk::new(alloc, given, &mut board)?;
    let crew = Crew::new(alloc, desk.seats, words)?.ok_or("a crew")?;
    let mut crew = crew.beside(rt, alloc, steps);
    crew.comes_to(rt, alloc, words.len() as u64)?;
    Ok(())
}

/// SMALL's windows with so many ranks, which write 41 puts of so many steps, ten times.
fn ten_runs<R: Threads + Abort + Sync>(
    rt: &R,
    alloc: Global,
    ranks: usize,
    steps: usize,
) -> Result<(), Fail> {
    let run = small_run(alloc, ranks, 40).ok_or("a run")?;
    let Some(given) = Given::new(alloc, run)? else {
        return Err(AllocError.into());
    };
    let words = given.words(alloc)?;
    for _ in 0..10 {
        one_run(rt, alloc, &given, words.as_slice(), steps)?;
    }
    Ok(())
}

#[test]
fn a_rank_and_two_readers_in_threads(rt: HostRuntime) -> Result<(), Fail> {
    ten_runs(&rt, rt.alloc(), 1, 41 * 8)
}

#[test]
fn two_ranks_and_two_readers_in_threads(rt: HostRuntime) -> Result<(), Fail> {
    ten_runs(&rt, rt.alloc(), 2, 41 * 5)
}
