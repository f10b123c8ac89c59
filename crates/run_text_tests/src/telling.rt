ghost use Rattle.std.specs.Prelude.{◌≤ℤ◌, pos, IfSome};

use crate::joined_runs::{joined, options};
use crate::sample_logs::{agreed, two_puts};
use io_edge::{MemorySink, Sink};
use run_log::{End, Log};
use run_text::{TextFault, body};
use sample_files::{SMALL_CORE, SMALL_STOCH, SMALL_TIME};
use sp_model::Run;
use std::alloc::{AllocError, Global};
use std::test::Fail;

const TWO_PUTS: &str =
    "first 80 none\nput 1\ntake 1 1 120 120 none\nput 2\ntake 1 2 100 120 none\nend iterations\nspoke 1 lagrangian\nreading 1 120\nreading 2 100\nlower 120 = 6\nupper none\n";

const AGREED_FRONT: &str = "first -7 none\nput 1\ntake 2 1 none -7 none\ntake hub 1 5 -7 5\nend ";

const AGREED_REST: &str =
    "\nspoke 1 lagrangian\nskip 1 2\nspoke 2 xhat\nreading 1 none\nlower 3 = 3/20\nupper 5 = 1/4\n";

// The run of SMALL, whose unit is 1/20.
fn small_run(alloc: Global) -> Option<Run> {
    joined(
        alloc,
        (SMALL_CORE, SMALL_TIME, SMALL_STOCH),
        &options(2, 1, 1),
    )
}

// The text of a log with the put of this number failing, what the call answers, and how many
// faults the sink counted.
fn told(
    alloc: Global,
    run: &Run,
    log: &Log,
    failing: u64,
) -> Result<(MemorySink, Result<(), TextFault>, u64), AllocError>
    requires lower { pos 0 ≤ℤ log.now.lower }
    requires upper { IfSome log.now.upper (λ upper. pos 0 ≤ℤ upper.value) }
{
    let mut out = MemorySink::new(alloc, vec![in alloc; failing]?);
    let answer = body(alloc, run, log, &mut out);
    let faults = out.faults();
    Ok((out, answer, faults))
}

#[test]
fn whole_texts(rt: HostRuntime) -> Result<(), Fail> {
    let alloc = rt.alloc();
    let Some(run) = small_run(alloc) else {
        return Err(AllocError.into());
    };
    let log = two_puts(alloc)?;
    let (out, answer, faults) = told(alloc, &run, &log, 0)?;
    assert_eq!(rt; (answer, faults), (Ok(()), 0));
    assert_eq!(rt; out.bytes(), TWO_PUTS.as_bytes());
    Ok(())
}

#[test]
fn ends(rt: HostRuntime) -> Result<(), Fail> {
    let alloc = rt.alloc();
    let Some(run) = small_run(alloc) else {
        return Err(AllocError.into());
    };
    for (end, word) in [
        (End::Agreed, "agreed"),
        (End::Gap, "gap"),
        (End::Iterations, "iterations"),
        (End::Spent { scenario: 1 }, "spent 2"),
    ] {
        let log = agreed(alloc, end)?;
        let (out, _answer, _faults) = told(alloc, &run, &log, 0)?;
        let wanted = format!(in alloc; "{AGREED_FRONT}{word}{AGREED_REST}")?;
        assert_eq!(rt; out.bytes(), wanted.as_bytes());
    }
    Ok(())
}

#[test]
fn failing_puts(rt: HostRuntime) -> Result<(), Fail> {
    let alloc = rt.alloc();
    let Some(run) = small_run(alloc) else {
        return Err(AllocError.into());
    };
    let log = two_puts(alloc)?;
    for failing in 1..12u64 {
        let (out, answer, faults) = told(alloc, &run, &log, failing)?;
        assert_eq!(rt; (answer, faults), (Err(TextFault::Failed), 1));
        let lines = out.bytes().iter().filter(|byte| **byte == b'\n').count();
        assert_eq!(rt; lines as u64, failing - 1);
        assert!(rt; TWO_PUTS.as_bytes().starts_with(out.bytes()));
    }
    Ok(())
}
