use crate::fixtures::{HARD_STOCH, HEADING, SMALL, expect, input, words};
use io_edge::{MemoryShelf, MemorySink};
use sppy_cli::{InputFile, InputKind, ScheduleKind, Status, desk};
use std::alloc::{AllocError, Global};
use std::test::Fail;

// The scenario LOW of SMALL alone.
const LOW_STOCH: &str = "STOCH SMALL\nSCENARIOS DISCRETE\n SC LOW ROOT 1 T2\n RHS NEED 2\nENDATA\n";

const DRIVE: &str = "drive core time stoch schedule --scale 2 --rho 1 --xhat 0";

// The rank writes a put, the spoke replies to it, and the hub takes the reply, twice.
const IN_TURN: &str = "r1*8 s1*14 h*5 r1*8 s1*14 h*5 h s1\n";

// The text of two puts to whose replies the hub listens.
const TWO_PUTS: &str =
    "first 80 none\nput 1\ntake 1 1 120 120 none\nput 2\ntake 1 2 100 120 none\nend iterations\nspoke 1 lagrangian\nreading 1 120\nreading 2 100\nlower 120 = 6\nupper none\n";

// What a command over SMALL with this stoch file and schedule wrote, and its status,
// where this load and this put fail.
fn driven(
    alloc: Global,
    given: &str,
    stoch: &str,
    schedule: &str,
    load: u64,
    put: u64,
) -> Result<(Status, Vec<u8>), AllocError> {
    let mut shelf = MemoryShelf::new(alloc, vec![in alloc; load]?);
    shelf.add("core", SMALL[0].as_bytes())?;
    shelf.add("time", SMALL[1].as_bytes())?;
    shelf.add("stoch", stoch.as_bytes())?;
    shelf.add("schedule", schedule.as_bytes())?;
    let mut out = MemorySink::new(alloc, vec![in alloc; put]?);
    let status = desk(alloc, &words(alloc, given)?, &mut shelf, &mut out);
    let written = Vec::from_slice(alloc, out.bytes())?;
    Ok((status, written))
}

// The texts of schedules, worked out apart from this code.
#[test]
fn schedules_give_their_texts(rt: HostRuntime) -> Result<(), Fail> {
    let alloc = rt.alloc();
    for (more, schedule, text) in [
        (
            " --iterations 0 --lagrangian 0",
            "",
            "first 80 none\nput 1\nend iterations\nlower 80 = 4\nupper none\n",
        ),
        (" --iterations 1", IN_TURN, TWO_PUTS),
        (" --iterations 1 --gap 1000000", IN_TURN, TWO_PUTS),
        (
            "",
            IN_TURN,
            "first 80 none\nput 1\ntake 1 1 120 120 none\nput 2\ntake 1 2 100 120 none\nput 3\ntake hub 3 120 120 120\ntake 1 3 100 120 120\nend agreed\nspoke 1 lagrangian\nreading 1 120\nreading 2 100\nreading 3 100\nlower 120 = 6\nupper 120 = 6\n",
        ),
        (
            " --iterations 1",
            "* the reading is torn\nr1*8 s1*5 h r1 s1*4\n",
            "first 80 none\nput 1\nput 2\ntake 1 2 100 100 none\nend iterations\nspoke 1 lagrangian\nreading 2 100\nlower 100 = 5\nupper none\n",
        ),
        (
            " --iterations 1 --ranks 2",
            "* the reading mixes two puts\nr1*5 r2*5 h r2*5 s1*7\n",
            "first 80 none\nput 1\nput 2\ntake 1 2 100 100 none\nend iterations\nspoke 1 lagrangian\nreading 2 100\nlower 100 = 5\nupper none\n",
        ),
        (
            " --lagrangian 2 --ranks 16",
            "",
            "first 80 none\nput 1\nput 2\nput 3\ntake hub 3 120 80 120\ntake 1 3 100 100 120\ntake 2 3 100 100 120\nend agreed\nspoke 1 lagrangian\nreading 3 100\nspoke 2 lagrangian\nreading 3 100\nlower 100 = 5\nupper 120 = 6\n",
        ),
    ] {
        let given = format!(in alloc; "{DRIVE}{more}")?;
        let whole = format!(in alloc; "{HEADING}{text}")?;
        let found = driven(alloc, &given, SMALL[2], schedule, 0, 0)?;
        expect(&rt, &found, Status::Done, &whole, more);
    }
    Ok(())
}

#[test]
fn one_scenario_agrees_at_once(rt: HostRuntime) -> Result<(), Fail> {
    let found = driven(rt.alloc(), DRIVE, LOW_STOCH, "", 0, 0)?;
    let text =
        "sppy 1\nscenarios 1 periods 2 nodes 2\ncolumns 2 taken-whole 2 rows 1\nunit 1/2\nfirst 4 none\nput 1\ntake hub 1 4 4 4\ntake 1 1 4 4 4\nend agreed\nspoke 1 lagrangian\nreading 1 4\nlower 4 = 2\nupper 4 = 2\n";
    expect(&rt, &found, Status::Done, text, "one scenario");
    Ok(())
}

#[test]
fn schedules_have_faults(rt: HostRuntime) -> Result<(), Fail> {
    let alloc = rt.alloc();
    for (schedule, line, kind) in [
        ("s2", 1, ScheduleKind::Actor),
        ("h*0", 1, ScheduleKind::Word),
        ("* none\nr2", 2, ScheduleKind::Actor),
        ("h\nh\u{e9}", 2, ScheduleKind::NotAscii),
        (
            "h*1000000 h*1000000 h*1000000 h*1000000 h*1000000\nh*1000000 h*1000000 h*1000000 h*1000000 h*1000000\nh",
            3,
            ScheduleKind::Limit,
        ),
    ] {
        let found = driven(alloc, DRIVE, SMALL[2], schedule, 0, 0)?;
        let status = input(InputFile::Schedule, line, InputKind::Schedule(kind));
        expect(&rt, &found, status, "", schedule);
    }
    Ok(())
}

#[test]
fn each_load_of_a_drive_may_fail(rt: HostRuntime) -> Result<(), Fail> {
    let alloc = rt.alloc();
    for load in 1..5 {
        let found = driven(alloc, DRIVE, SMALL[2], "h*0", load, 0)?;
        expect(&rt, &found, Status::ReadFault { faults: 1 }, "", "a load");
    }
    Ok(())
}

#[test]
fn each_put_of_a_drive_may_fail(rt: HostRuntime) -> Result<(), Fail> {
    let alloc = rt.alloc();
    let given = format!(in alloc; "{DRIVE} --iterations 1")?;
    let whole = format!(in alloc; "{HEADING}{TWO_PUTS}")?;
    let mut front = 0;
    for (at, line) in whole.split_inclusive('\n').enumerate() {
        let found = driven(alloc, &given, SMALL[2], IN_TURN, 0, at as u64 + 1)?;
        let text = whole.get(..front).unwrap_or("");
        expect(&rt, &found, Status::WriteFault { faults: 1 }, text, line);
        front = front.saturating_add(line.len());
    }
    Ok(())
}

#[test]
fn a_drive_may_have_no_bound(rt: HostRuntime) -> Result<(), Fail> {
    let alloc = rt.alloc();
    let found = driven(alloc, DRIVE, HARD_STOCH, "", 0, 0)?;
    let infeasible = Status::Infeasible { scenario: 1 };
    expect(&rt, &found, infeasible, HEADING, "no point");
    let given = format!(in alloc; "{DRIVE} --budget 1")?;
    let found = driven(alloc, &given, SMALL[2], "", 0, 0)?;
    let spent = Status::Spent {
        scenario: 0,
        opened: 1,
    };
    expect(&rt, &found, spent, HEADING, "spent");
    Ok(())
}
