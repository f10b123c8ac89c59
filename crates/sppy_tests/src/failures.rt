use crate::fixtures::{HEADING, SMALL, TEXT, WAIT, expect, words};
use io_edge::{MemoryShelf, MemorySink};
use sppy_cli::{Status, desk};
use std::alloc::{AllocError, Global};
use std::test::Fail;

// A run over a shelf and a sink of which these calls fail.
fn failed(
    alloc: Global,
    given: &str,
    load: u64,
    put: u64,
) -> Result<(Status, Vec<u8>), AllocError> {
    let mut loads = Vec::new(alloc);
    loads.push(load)?;
    let mut puts = Vec::new(alloc);
    puts.push(put)?;
    let mut shelf = MemoryShelf::new(alloc, loads);
    let [core, time, stoch] = SMALL;
    shelf.add("core", core.as_bytes())?;
    shelf.add("time", time.as_bytes())?;
    shelf.add("stoch", stoch.as_bytes())?;
    let mut out = MemorySink::new(alloc, puts);
    let status = desk(alloc, &words(alloc, given)?, &mut shelf, &mut out);
    let written = Vec::from_slice(alloc, out.bytes())?;
    Ok((status, written))
}

// The first call of the shelf and of the sink would fail, so none was made.
#[test]
fn words_are_refused(rt: HostRuntime) -> Result<(), Fail> {
    let alloc = rt.alloc();
    for given in [
        "",
        "frob",
        "frob core time stoch",
        "solve core time stoch",
        "wait core time",
        "show core time stoch other",
        "wait -core time stoch",
        "wait core time -stoch",
        "wait core time stoch --scale",
        "wait core time stoch --scale 0",
        "wait core time stoch --scale 1000001",
        "wait core time stoch --scale +2",
        "wait core time stoch --scale 2 --scale 2",
        "wait core time stoch --rho 1000000001",
        "wait core time stoch --iterations 100001",
        "wait core time stoch --box 0",
        "wait core time stoch --budget 0",
        "wait core time stoch --budget 1000000001",
        "wait core time stoch --ranks 0",
        "wait core time stoch --ranks 17",
        "wait core time stoch --lagrangian 17",
        "wait core time stoch --xhat 1",
        "show core time stoch --xhat 1",
        "wait core time stoch --gap 1000000000000000001",
        "wait core time stoch other --xhat 0",
        "drive core time stoch --xhat 0",
        "drive core time stoch schedule",
        "drive core time stoch schedule --xhat 1",
        "drive core time stoch schedule --xhat 0 --xhat 0",
        "drive core time stoch schedule --ranks 2",
        "drive core time stoch -schedule --xhat 0",
        "drive core time stoch schedule other --xhat 0",
        "wait core time stoch 2 --scale",
        "wait --scale 2 core time stoch",
        "wait core time stoch --scale 00000000000000000002",
    ] {
        expect(&rt, &failed(alloc, given, 1, 1)?, Status::Words, "", given);
    }
    for given in [
        "wait core time stoch --rho 1 --scale 0000000000000000002",
        "wait core time stoch --box 1 --iterations 0 --scale 2 --budget 1000",
        "wait core time stoch --scale 2 --ranks 16 --lagrangian 16 --xhat 0 --gap 1000000000000000000",
    ] {
        expect(&rt, &failed(alloc, given, 0, 0)?, Status::Done, TEXT, given);
    }
    Ok(())
}

#[test]
fn each_load_may_fail(rt: HostRuntime) -> Result<(), Fail> {
    let alloc = rt.alloc();
    for load in 1..4 {
        let found = failed(alloc, WAIT, load, 0)?;
        let status = Status::ReadFault { faults: 1 };
        expect(&rt, &found, status, "", "a load fails");
    }
    Ok(())
}

#[test]
fn each_put_may_fail(rt: HostRuntime) -> Result<(), Fail> {
    let alloc = rt.alloc();
    // what stands written before each put, by its length in TEXT
    let fronts = [0, 7, 37, 68, HEADING.len(), 92, 105];
    for (at, len) in fronts.iter().enumerate() {
        let found = failed(alloc, WAIT, 0, at as u64 + 1)?;
        let front = TEXT.get(..*len).unwrap_or("");
        let status = Status::WriteFault { faults: 1 };
        expect(&rt, &found, status, front, "a put fails");
    }
    Ok(())
}
