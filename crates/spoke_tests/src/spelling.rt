//! The words of a rank's part of a put and of a reply, beside words worked out by
//! hand.

ghost use Rattle.std.specs.Prelude.{◌≡◌, ◌<◌, Some};
ghost use Rattle.hedging.specs.Hedges.{made_of};
ghost use Rattle.put_words.specs.Puts.{put_of};

use crate::joined_runs::{joined, options};
use hedging::{Hedge, first};
use put_codec::{cells, layout_of, part_word, start};
use sample_files::{SMALL_CORE, SMALL_STOCH, SMALL_TIME};
use sp_model::Run;
use std::alloc::{AllocError, Global};
use std::rt::HostRuntime;
use std::test::Fail;
use word_codec::{Cell, NotCanonical, decode_cell, decode_reply, reply_word};

/// Where a rank's cells begin, how many there are, and the words of its part of a
/// put.
fn part_text(alloc: Global, run: &Run, hedge: &Hedge, rank: usize) -> Result<String, AllocError>
    requires put { put_of run.now 1 ≡ Some (made_of hedge.now) }
    requires rank { rank < run.now.options.ranks }
{
    let layout = layout_of(run);
    let mut words = Vec::new(alloc);
    for index in 0..3 * cells(&layout, rank) {
        words.push(part_word(&hedge.put, &layout, rank, index))?;
    }
    format!(in alloc;
        "{} {} {:?}",
        start(&layout, rank),
        cells(&layout, rank),
        words.as_slice()
    )
}

/// SMALL's first put has the multipliers -10 and 10 and the values 2 and 6: its parts
/// for one rank and for two. The high word of -10 is that of -1.
#[test]
fn parts(rt: HostRuntime) -> Result<(), Fail> {
    let alloc = rt.alloc();
    for (ranks, rank, told) in [
        (
            1,
            0,
            "0 2 [18446744073709551615, 18446744073709551606, 2, 0, 10, 6]",
        ),
        (2, 0, "0 1 [18446744073709551615, 18446744073709551606, 2]"),
        (2, 1, "1 1 [0, 10, 6]"),
    ] {
        let given = options(2, 1, ranks, 1, 1000000);
        let Some(run) = joined(alloc, (SMALL_CORE, SMALL_TIME, SMALL_STOCH), &given) else {
            return Err(AllocError.into());
        };
        let Ok(hedge) = first(alloc, &run) else {
            return Err(AllocError.into());
        };
        if rank < run.options.ranks {
            let text = part_text(alloc, &run, &hedge, rank)?;
            assert_eq!(rt; text.as_str(), told);
        }
    }
    Ok(())
}

/// Words back into the cell and the reply that have them.
#[test]
fn words_back(rt: HostRuntime) -> Result<(), Fail> {
    let low = Cell {
        multiplier: -10,
        x: 2,
    };
    assert!(rt; decode_cell([u64::MAX, u64::MAX - 9, 2]) == Ok(low));
    for (index, word) in [(0, 1), (1, 0), (2, 120)] {
        if index < 3 {
            assert!(rt; reply_word(Some(120), index) == word);
            assert!(rt; reply_word(None, index) == 0);
        }
    }
    assert!(rt; decode_reply([1, 0, 120]) == Ok(Some(120)));
    assert!(rt; decode_reply([0, 0, 1]) == Err(NotCanonical { word: 2 }));
    Ok(())
}
