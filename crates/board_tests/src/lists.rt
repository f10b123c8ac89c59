use crate::desks::{answers, text_of};
use crate::given::Given;
use crate::plain::PlainDesk;
use crate::small::small_run;
use crate::table::TableDesk;
use std::alloc::{AllocError, Global};
use std::process::Abort;
use std::rt::HostRuntime;
use std::test::Fail;
use table_board::TableBoard;

/// The steps of a list at the seats of both boards. The answers are the same one by one,
/// and those that say more than that an actor went on are told.
fn played(rt: &impl Abort, alloc: Global, ranks: usize, steps: &str) -> Result<String, Fail> {
    let run = small_run(alloc, ranks, 1).ok_or("a run")?;
    let Some(given) = Given::new(alloc, run)? else {
        return Err(AllocError.into());
    };
    let mut plain = PlainDesk::new(alloc, &given)?;
    let plain = answers(alloc, &given.run, &mut plain, steps)?;
    let mut board = TableBoard::new(alloc, given.meaning())?;
    let mut table = TableDesk::new(alloc, &given, &mut board)?;
    let table = answers(alloc, &given.run, &mut table, steps)?;
    assert!(rt; plain.as_slice() == table.as_slice());
    Ok(text_of(alloc, plain.as_slice())?)
}

/// The whole of a little run, of which each actor's steps come in turn; a reading that is
/// torn where the rank opens the next put, as the spoke and as a reader tell it; and one
/// that finds the parts of two puts.
#[test]
fn lists_of_steps_on_both_boards(rt: HostRuntime) -> Result<(), Fail> {
    for (ranks, steps, told) in [
        (
            1,
            "11111111 ssssssssssssss hhhhh 11111111 ssssssssssssss hhhhh x s",
            "Spoke(Asked); Spoke(Replied { put: 1 }); Polled(Reading { put: 1, value: Some(120) }); Spoke(Asked); Spoke(Replied { put: 2 }); Polled(Reading { put: 2, value: Some(100) }); Stopped; Spoke(Ended); ",
        ),
        (
            1,
            "11111111 sssss h 1 ssss 1111111 ssssssssssssss hhhhh x s",
            "Spoke(Asked); Polled(Again(Old { stamp: 0, last: 0 })); Spoke(Again); Spoke(Asked); Spoke(Replied { put: 2 }); Polled(Reading { put: 2, value: Some(100) }); Stopped; Spoke(Ended); ",
        ),
        (
            1,
            "11111111 rrrr h 1 rrrr",
            "Polled(Again(Old { stamp: 0, last: 0 })); Read(Again(Torn { rank: 0, first: 2, last: 3 })); ",
        ),
        (
            2,
            "11111 22222 h 22222 sssssss 11111 ssssssssssssssss hhhhh x s",
            "Polled(Again(Old { stamp: 0, last: 0 })); Spoke(Asked); Spoke(Again); Spoke(Asked); Spoke(Replied { put: 2 }); Polled(Reading { put: 2, value: Some(100) }); Stopped; Spoke(Ended); ",
        ),
        (
            2,
            "11111 22222 h 22222 rrrrrr",
            "Polled(Again(Old { stamp: 0, last: 0 })); Read(Again(Mixed { rank: 1, first: 2, other: 4 })); ",
        ),
    ] {
        let text = played(&rt, rt.alloc(), ranks, steps)?;
        assert_eq!(rt; text.as_str(), told);
    }
    Ok(())
}
