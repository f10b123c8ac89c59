use crate::{Actor, ScheduleFault, Turn, first_fault_is_first, read_schedule};
use std::alloc::{AllocError, Global};
use std::process::Abort;
use std::rt::HostRuntime;
use std::test::Fail;

// A turn as a word, with the number from 0.
fn write_turn(alloc: Global, out: &mut Vec<u8>, turn: Turn) -> Result<(), AllocError> {
    let count = turn.count;
    let text = match turn.actor {
        Actor::Hub => format!(in alloc; "h*{count} ")?,
        Actor::Rank(rank) => format!(in alloc; "r{rank}*{count} ")?,
        Actor::Spoke(spoke) => format!(in alloc; "s{spoke}*{count} ")?,
    };
    out.extend_from_slice(text.as_bytes())
}

// The turns of a file beside two ranks and three spokes, or the fault.
fn told(alloc: Global, bytes: &[u8]) -> Result<Vec<u8>, AllocError> {
    let mut out = Vec::new(alloc);
    match read_schedule(alloc, bytes, 2, 3) {
        Ok(schedule) => {
            for turn in schedule.turns.as_slice() {
                write_turn(alloc, &mut out, *turn)?;
            }
        }
        Err(ScheduleFault::At { line, kind }) => {
            let fault = format!(in alloc; "{line} {kind:?}")?;
            out.extend_from_slice(fault.as_bytes())?;
        }
        Err(ScheduleFault::Memory) => return Err(AllocError),
    }
    Ok(out)
}

// A text with a word of 1025 bytes for each `#`, and nine words of a million
// steps each for each `@`.
fn spelled(alloc: Global, text: &[u8]) -> Result<Vec<u8>, AllocError> {
    let mut all = Vec::new(alloc);
    for byte in text {
        match *byte {
            b'#' => all.extend_from_slice([b'h'; 1025].as_slice())?,
            b'@' => all.extend_from_slice(
                b"h*1000000 h*1000000 h*1000000 h*1000000 h*1000000 h*1000000 h*1000000 h*1000000 h*1000000 ",
            )?,
            other => all.extend_from_slice([other].as_slice())?,
        }
    }
    Ok(all)
}

// Whether a row holds: what is told of its text stands behind `|`.
fn holds(alloc: Global, row: &[u8]) -> Result<bool, AllocError> {
    let row = spelled(alloc, row)?;
    let mut parts = row.as_slice().split(|byte| *byte == b'|');
    let text = parts.next().unwrap_or(b"");
    let want = parts.next().unwrap_or(b"");
    let found = told(alloc, text)?;
    Ok(found.as_slice() == want)
}

// The number of the first row that doesn't hold, or how many there are.
fn first_wrong(alloc: Global, rows: &[&[u8]]) -> Result<usize, AllocError> {
    for (number, row) in rows.iter().enumerate() {
        if !holds(alloc, row)? {
            return Ok(number);
        }
    }
    Ok(rows.len())
}

#[test]
fn reads_schedules(rt: HostRuntime) -> Result<(), Fail> {
    first_fault_is_first();
    let rows: [&[u8]; 43] = [
        b"|",
        b"\n \t\n* h r1\n|",
        b"h|h*1 ",
        b"h r1*8 s1*14 h*5\n|h*1 r0*8 s0*14 h*5 ",
        b" h\n*h\nr2 s3*1000000\n|h*1 r1*1 s2*1000000 ",
        b"s3 r2*7\n|s2*1 r1*7 ",
        b"r1\n s2\r\n\th *x\n|3 Word",
        b"h*0|1 Word",
        b"h*1000001|1 Word",
        b"h*01|1 Word",
        b"h*|1 Word",
        b"*h|",
        b" *h|1 Word",
        b"h*1*1|1 Word",
        b"h1|1 Word",
        b"H|1 Word",
        b"r|1 Word",
        b"r01|1 Word",
        b"s-1|1 Word",
        b"r+1|1 Word",
        b"r1 *2|1 Word",
        b"r1x|1 Word",
        b"r1\x0b|1 Word",
        b"h,r1|1 Word",
        b"r0|1 Actor",
        b"r3|1 Actor",
        b"s4|1 Actor",
        b"s0*2|1 Actor",
        b"r3*0|1 Word",
        b"r3*x|1 Word",
        b"r18446744073709551616|1 Actor",
        b"s340282366920938463463374607431768211457|1 Actor",
        b"h*18446744073709551617|1 Word",
        b"h*4294967297|1 Word",
        b"h r1\n s9 q|2 Actor",
        b"@h*1000000|@h*1000000 ",
        b"@h*1000000 h|1 Limit",
        b"@h*999999 h\nh|2 Limit",
        b"@h*999999 r1*2|1 Limit",
        b"@h*1000000\nr9 h|2 Actor",
        b"@h*1000000\nh r9|2 Limit",
        b"q\nh\x80|2 NotAscii",
        b"q\nh\n#|3 LongLine",
    ];
    let wrong = first_wrong(rt.alloc(), rows.as_slice())?;
    assert!(rt; wrong == 43);
    Ok(())
}
