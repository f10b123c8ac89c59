//! A spoke and a reader beside ranks that write puts, in orders of their steps that
//! are written out.

ghost use Rattle.std.specs.Prelude.{IfOk, IfSome};
ghost use Rattle.sp_model.specs.RunFacts.{OptionFacts};
ghost use Rattle.spoke_tests.specs.Benches.{IsBench};

use crate::bench::Bench;
use crate::joined_runs::{joined, options};
use crate::making::all_puts;
use crate::texts::{BELOW_CORE, STAGES_CORE, STAGES_STOCH, STAGES_TIME, THREE_STOCH};
use crate::turns::{put_at, turn};
use hedging::first;
use lagrangian_spoke::Phase;
use log_words::{Backing, SpokeEnd};
use sample_files::{SMALL_CORE, SMALL_STOCH, SMALL_TIME};
use sp_model::{Options, Run};
use std::alloc::{AllocError, Global};
use std::rt::HostRuntime;
use std::test::Fail;

/// The bench of a run behind the steps of a script, a letter for each. None where the
/// run has no first put, or not one or two ranks and three spokes.
fn played(alloc: Global, run: &Run, script: &str) -> Result<Option<Bench>, AllocError>
    ensures { IfOk result (λ played. IfSome played (IsBench run.now)) }
{
    if run.options.ranks > 2 || run.options.lagrangian < 3 {
        return Ok(None);
    }
    let Ok(hedge) = first(alloc, run) else {
        return Ok(None);
    };
    let puts = all_puts(alloc, run, hedge)?;
    let mut bench = Bench::new(alloc, run, puts)?;
    for actor in script.as_bytes() {
        turn(alloc, &mut bench, run, *actor)?;
    }
    Ok(Some(bench))
}

/// What the reader told last, and the put that it read last.
fn read_text(alloc: Global, bench: &Bench) -> Result<String, AllocError> {
    let put = &bench.reader.put;
    format!(in alloc;
        "{:?} {} {:?} {:?}",
        bench.read,
        put.number,
        put.multipliers.values.as_slice(),
        put.x.as_slice()
    )
}

/// What the reader of replies told last behind a script, in a run of SMALL's times and
/// scenarios.
fn polled_text(alloc: Global, core: &str, script: &str) -> Result<String, AllocError> {
    let given = options(2, 1, 1, 1, 1000);
    let Some(run) = joined(alloc, (core, SMALL_TIME, SMALL_STOCH), &given) else {
        return format!(in alloc; "no run");
    };
    match played(alloc, &run, script)? {
        Some(bench) => format!(in alloc; "{:?}", bench.polled),
        None => format!(in alloc; "no bench"),
    }
}

/// What a spoke leaves: its answers, and its best with its multipliers.
fn left_text(alloc: Global, left: &SpokeEnd) -> Result<String, AllocError> {
    match &left.best {
        Some(
            Backing::Lower {
                put,
                value,
                multipliers,
            },
        ) => format!(in alloc;
            "{:?} best {put} {value} {:?}",
            left.log.answers.as_slice(),
            multipliers.values.as_slice()
        ),
        _ => format!(in alloc; "{:?}", left.log.answers.as_slice()),
    }
}

/// What the spoke told last, and where it has ended, what it leaves behind the run's
/// last put.
fn spoke_text(alloc: Global, run: &Run, bench: Bench) -> Result<String, AllocError>
    requires { IsBench run.now bench }
{
    let Bench {
        mut spoke,
        told,
        puts,
        ..
    } = bench;
    if spoke.phase != Phase::Ended {
        return format!(in alloc; "{told:?}");
    }
    let Some(last) = put_at(puts.as_slice(), run, run.options.iterations + 1) else {
        return format!(in alloc; "no last put");
    };
    spoke.finish(alloc, run, last)?;
    let left = left_text(alloc, &spoke.into_end())?;
    format!(in alloc; "{told:?}; {left}")
}

/// What the spoke of a run of three texts with one rank or two tells behind a script.
fn told_text(
    alloc: Global,
    texts: (&str, &str, &str),
    options: &Options,
    script: &str,
) -> Result<String, AllocError>
    requires { OptionFacts options.now }
{
    let Some(run) = joined(alloc, texts, options) else {
        return format!(in alloc; "no run");
    };
    let Some(bench) = played(alloc, &run, script)? else {
        return format!(in alloc; "no bench");
    };
    spoke_text(alloc, &run, bench)
}

/// Readings of SMALL's puts, by one rank or two: a whole one of each, one that is torn
/// where the rank opens the next put, one of two puts at once, an old one, and one of
/// a put that is open.
#[test]
fn readings(rt: HostRuntime) -> Result<(), Fail> {
    let alloc = rt.alloc();
    for (ranks, script, told) in [
        (
            1,
            "11111111 rrrrrrrr",
            "Reading { put: 1 } 1 [-10, 10] [2, 6]",
        ),
        (
            1,
            "11111111 rrrr 1 rrrr",
            "Again(Torn { rank: 0, first: 2, last: 3 }) 0 [0, 0] [0, 0]",
        ),
        (
            2,
            "11111 22222 22222 rrrrrr",
            "Again(Mixed { rank: 1, first: 2, other: 4 }) 0 [0, 0] [0, 0]",
        ),
        (
            1,
            "11111111 rrrrrrrr r",
            "Again(Old { stamp: 2, last: 1 }) 1 [-10, 10] [2, 6]",
        ),
        (1, "1 r", "Again(Odd { rank: 0, stamp: 1 }) 0 [0, 0] [0, 0]"),
        (
            2,
            "11111 2 rrrrrr",
            "Again(Odd { rank: 1, stamp: 1 }) 0 [0, 0] [0, 0]",
        ),
        (
            2,
            "11111 22222 11111 22222 rrrrrrrrrr",
            "Reading { put: 2 } 2 [-15, 15] [4, 6]",
        ),
    ] {
        let given = options(2, 1, ranks, 1, 1000000);
        let Some(run) = joined(alloc, (SMALL_CORE, SMALL_TIME, SMALL_STOCH), &given) else {
            return Err(AllocError.into());
        };
        let Some(bench) = played(alloc, &run, script)? else {
            return Err(AllocError.into());
        };
        assert_eq!(rt; read_text(alloc, &bench)?.as_str(), told);
    }
    Ok(())
}

/// The spoke of SMALL's run with two puts: it replies to both, reads the second alone
/// where a reading of the first is torn or mixed, goes on with a reading that it began
/// before the hub stopped, and is given the last put behind its end. A budget of 26
/// boxes is enough for both puts and the first dual value, and spent by the second's
/// first scenario, which the plain search needs 107 for.
#[test]
fn small_replies(rt: HostRuntime) -> Result<(), Fail> {
    let alloc = rt.alloc();
    let both =
        "Ended; [Reply { put: 1, value: Some(120) }, Reply { put: 2, value: Some(100) }] best 1 120 [-10, 10]";
    let second = "Ended; [Reply { put: 2, value: Some(100) }] best 2 100 [-15, 15]";
    let skipped =
        "Ended; [Reply { put: 1, value: Some(120) }, Skip { put: 2, scenario: 0, opened: 26 }] best 1 120 [-10, 10]";
    for (ranks, budget, script, told) in [
        (1, 1000, "11111111 ssssssssssssss", "Replied { put: 1 }"),
        (
            1,
            1000,
            "11111111 ssssssssssssss 11111111 ssssssssssssss x s",
            both,
        ),
        (1, 1000, "11111111 sssss 1 ssss", "Again"),
        (
            1,
            1000,
            "11111111 sssss 1 ssss 1111111 ssssssssssssss x s",
            second,
        ),
        (2, 1000, "11111 22222 22222 sssssss", "Again"),
        (
            2,
            1000,
            "11111 22222 22222 sssssss 11111 ssssssssssssssss x s",
            second,
        ),
        (2, 1000, "11111 22222 ssssssssssssssss x s", both),
        (1, 1000, "11111111 sss x sssssssssss s", both),
        (1, 1000, "11111111 ss x 1 sssssss s", second),
        (1, 1000, "x s", second),
        (1, 26, "11111111 ssssssssssssss 11111111 sssssssss", "Moved"),
        (
            1,
            26,
            "11111111 ssssssssssssss 11111111 sssssssss x s",
            skipped,
        ),
        (
            1,
            26,
            "x s",
            "Ended; [Skip { put: 2, scenario: 0, opened: 26 }]",
        ),
    ] {
        let given = options(2, 1, ranks, 1, budget);
        let text = told_text(alloc, (SMALL_CORE, SMALL_TIME, SMALL_STOCH), &given, script)?;
        assert_eq!(rt; text.as_str(), told);
    }
    Ok(())
}

/// Three stages and two ranks with parts of six and of twelve words, where the second
/// reply is the better one; three scenarios of which the second and the third reply
/// are equal.
#[test]
fn best_replies(rt: HostRuntime) -> Result<(), Fail> {
    let alloc = rt.alloc();
    let text = told_text(
        alloc,
        (STAGES_CORE, STAGES_TIME, STAGES_STOCH),
        &options(4, 3, 2, 1, 1000),
        "11111111 22222222222222 ssssssssssssssssssssssssssss 11111111 22222222222222 ssssssssssssssssssssssssssss x s",
    )?;
    assert_eq!(rt;
        text.as_str(),
        "Ended; [Reply { put: 1, value: Some(2711) }, Reply { put: 2, value: Some(2898) }] best 2 2898 [-151, -150, 149, 150, 2, 0]"
    );
    let text = told_text(
        alloc,
        (SMALL_CORE, SMALL_TIME, THREE_STOCH),
        &options(2, 1, 1, 2, 1000),
        "11111111111 sssssssssssssssss 11111111111 sssssssssssssssss 11111111111 sssssssssssssssss x s",
    )?;
    assert_eq!(rt;
        text.as_str(),
        "Ended; [Reply { put: 1, value: Some(4) }, Reply { put: 2, value: Some(6) }, Reply { put: 3, value: Some(6) }] best 2 6 [-2, -2, 4]"
    );
    Ok(())
}

/// Polls of the spoke's window: before any reply, while one is open, a whole one, the
/// same once more, and the next one.
#[test]
fn polls(rt: HostRuntime) -> Result<(), Fail> {
    let alloc = rt.alloc();
    for (script, told) in [
        ("p", "Again(Old { stamp: 0, last: 0 })"),
        ("11111111 ssssssssss p", "Again(Odd { rank: 0, stamp: 1 })"),
        ("11111111 ssssssssssssss pppp", "Going"),
        (
            "11111111 ssssssssssssss ppppp",
            "Reading { put: 1, value: Some(120) }",
        ),
        (
            "11111111 ssssssssssssss pppppp",
            "Again(Old { stamp: 2, last: 1 })",
        ),
        (
            "11111111 ssssssssssssss ppppp 11111111 ssssssssssssss ppppp",
            "Reading { put: 2, value: Some(100) }",
        ),
    ] {
        let text = polled_text(alloc, SMALL_CORE, script)?;
        assert_eq!(rt; text.as_str(), told);
    }
    Ok(())
}

/// Polls during which the spoke opens its next reply, or writes it whole, behind each
/// of their steps.
#[test]
fn torn_polls(rt: HostRuntime) -> Result<(), Fail> {
    let alloc = rt.alloc();
    let opened = "Again(Torn { rank: 0, first: 2, last: 3 })";
    let whole = "Again(Torn { rank: 0, first: 2, last: 4 })";
    for (script, told) in [
        ("11111111 ssssssssssssss 11111111 p ssssssssss pppp", opened),
        ("11111111 ssssssssssssss 11111111 pp ssssssssss ppp", opened),
        ("11111111 ssssssssssssss 11111111 ppp ssssssssss pp", opened),
        ("11111111 ssssssssssssss 11111111 pppp ssssssssss p", opened),
        (
            "11111111 ssssssssssssss 11111111 p ssssssssssssss pppp",
            whole,
        ),
        (
            "11111111 ssssssssssssss 11111111 pppp ssssssssssssss p",
            whole,
        ),
        (
            "11111111 ssssssssssssss 11111111 pp ssssssssssssss ppp ppppp",
            "Reading { put: 2, value: Some(100) }",
        ),
    ] {
        let text = polled_text(alloc, SMALL_CORE, script)?;
        assert_eq!(rt; text.as_str(), told);
    }
    Ok(())
}

/// SMALL with a constant of -100, which lowers each bound by 100 units, that is by 2000:
/// the replies are below 0, and their high words those of -1.
#[test]
fn replies_below_zero(rt: HostRuntime) -> Result<(), Fail> {
    let alloc = rt.alloc();
    for (script, told) in [
        (
            "11111111 ssssssssssssss ppppp",
            "Reading { put: 1, value: Some(-1880) }",
        ),
        (
            "11111111 ssssssssssssss 11111111 ssssssssssssss ppppp",
            "Reading { put: 2, value: Some(-1900) }",
        ),
    ] {
        let text = polled_text(alloc, BELOW_CORE, script)?;
        assert_eq!(rt; text.as_str(), told);
    }
    let text = told_text(
        alloc,
        (BELOW_CORE, SMALL_TIME, SMALL_STOCH),
        &options(2, 1, 1, 1, 1000),
        "11111111 ssssssssssssss 11111111 ssssssssssssss x s",
    )?;
    assert_eq!(rt;
        text.as_str(),
        "Ended; [Reply { put: 1, value: Some(-1880) }, Reply { put: 2, value: Some(-1900) }] best 1 -1880 [-10, 10]"
    );
    Ok(())
}
