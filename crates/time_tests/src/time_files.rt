use sample_files::SMALL_TIME;
use smps_core::{Core, read_core};
use smps_time::{TimeFault, first_fault_is_first, read_time};
use smps_words::{stage_in_is_last, stage_is_one};
use std::alloc::{AllocError, Global};
use std::test::Fail;

/// The objective Z, the rows 1 to 9 and the columns A to J.
const LETTERS: &[u8] =
    b"ROWS\n N Z\n L 1\n L 2\n L 3\n L 4\n L 5\n L 6\n L 7\n L 8\n L 9\nCOLUMNS\n A Z 1\n B Z 1\n C Z 1\n D Z 1\n E Z 1\n F Z 1\n G Z 1\n H Z 1\n I Z 1\n J Z 1\nENDATA\n";

const SMALL: &[u8] =
    b"ROWS\n N COST\n G NEED\nCOLUMNS\n X COST 1 NEED 1\n Y COST 3 NEED 1\nENDATA\n";

/// The columns and rows of the farmer problem.
const FARM: &[u8] =
    b"ROWS\n N COST\n L LAND\n G WHEAT\n G CORN\n G BEETS\nCOLUMNS\n X1 LAND 1\n X2 LAND 1\n X3 LAND 1\n Y1 WHEAT 1\n Y2 CORN 1\n W1 COST 1\n W2 COST 1\n W3 COST 1\n W4 COST 1\nENDATA\n";

// The periods, each with its name, first column and first row; or the fault.
fn time_text(alloc: Global, core: &Core, bytes: &[u8]) -> Result<Vec<u8>, AllocError> {
    let mut out = Vec::new(alloc);
    match read_time(alloc, bytes, core) {
        Ok(periods) => {
            for k in 0..periods.names.len() {
                let name = periods.names.name(k as u32).unwrap_or(b"?");
                out.extend_from_slice(name)?;
                let column = periods.columns.as_slice()[k];
                let row = periods.rows.as_slice()[k];
                let numbers = format!(in alloc; " {column} {row};")?;
                out.extend_from_slice(numbers.as_bytes())?;
            }
        }
        Err(TimeFault::At { line, kind }) => {
            let fault = format!(in alloc; "{line} {kind:?}")?;
            out.extend_from_slice(fault.as_bytes())?;
        }
        Err(TimeFault::Memory) => return Err(AllocError),
    }
    Ok(out)
}

// A text with a long word for each `#`.
fn spelled(alloc: Global, text: &[u8]) -> Result<Vec<u8>, AllocError> {
    let mut all = Vec::new(alloc);
    for byte in text {
        if *byte == b'#' {
            all.extend_from_slice([b'x'; 1025].as_slice())?;
        } else {
            all.push(*byte)?;
        }
    }
    Ok(all)
}

// Whether a row holds: what is told of its text stands behind `|`.
fn holds(alloc: Global, core: &Core, row: &[u8]) -> Result<bool, AllocError> {
    let mut parts = row.split(|byte| *byte == b'|');
    let text = spelled(alloc, parts.next().unwrap_or(b""))?;
    let want = parts.next().unwrap_or(b"");
    let found = time_text(alloc, core, text.as_slice())?;
    Ok(found.as_slice() == want)
}

// The number of the first row that doesn't hold beside a core, or how many there are.
fn first_wrong(alloc: Global, core: &[u8], rows: &[&[u8]]) -> Result<usize, AllocError> {
    let Ok(core) = read_core(alloc, core) else {
        return Err(AllocError);
    };
    for (number, row) in rows.iter().enumerate() {
        if !holds(alloc, &core, row)? {
            return Ok(number);
        }
    }
    Ok(rows.len())
}

#[test]
fn periods_and_first_faults(rt: HostRuntime) -> Result<(), Fail> {
    first_fault_is_first();
    stage_is_one();
    stage_in_is_last();
    let rows: [&[u8]; 36] = [
        b"PERIODS\n A Z P\n B 2 Q\nENDATA\n|P 0 0;Q 1 1;",
        b"TIME a b\n* c\nPERIODS LP\n A 1 P\n\tC\t5 Q\r\nENDATA\nFOO\n|P 0 0;Q 2 4;",
        b"PERIODS\n A Z P1\n B 2 P2\n C 3 P3\n D 4 P4\n E 5 P5\n F 6 P6\n G 7 P7\n H 8 P8\nENDATA|P1 0 0;P2 1 1;P3 2 2;P4 3 3;P5 4 4;P6 5 5;P7 6 6;P8 7 7;",
        b"PERIODS\n A Z P\n B 2 Q\nENDATA\n\x80\n|5 NotAscii",
        b"FOO\n \x01\n|2 NotAscii",
        b"TIME\nTIME\n|2 Section",
        b" A Z P\n|1 Section",
        b"ENDATA x\n|1 Section",
        b"PERIODS EXPLICIT\n|1 Section",
        b"PERIODS LP EXPLICIT\n|1 Section",
        b"PERIODS\nPERIODS\n|2 Section",
        b"PERIODS\nTIME\n|2 Section",
        b"TIME\nROWS\n|2 Section",
        b"PERIODS\n ENDATA\n|2 Fields",
        b"PERIODS\n K X P x\n|2 Fields",
        b"PERIODS\nENDATA x\n|2 Fields",
        b"PERIODS\n K Z P\n|2 Unknown",
        b"PERIODS\n A X P\n|2 Unknown",
        b"PERIODS\n A Z P\n B A P\n|3 Unknown",
        b"PERIODS\n A Z P\n A 1 P\n|3 Twice",
        b"PERIODS\n A Z P1\n B 2 P2\n C 3 P3\n D 4 P4\n E 5 P5\n F 6 P6\n G 7 P7\n H 8 P8\n I 9 P3\n|10 Twice",
        b"PERIODS\n B Z P\n|2 Order",
        b"PERIODS\n A 2 P\n|2 Order",
        b"PERIODS\n A 1 P\n B 1 Q\n|3 Order",
        b"PERIODS\n A Z P\n A 1 Q\n|3 Order",
        b"PERIODS\n A 1 P\n B Z Q\n|3 Order",
        b"PERIODS\n A Z P1\n B 2 P2\n C 3 P3\n D 4 P4\n E 5 P5\n F 6 P6\n G 7 P7\n H 8 P8\n H 9 P9\n|10 Order",
        b"PERIODS\n A Z P1\n B 2 P2\n C 3 P3\n D 4 P4\n E 5 P5\n F 6 P6\n G 7 P7\n H 8 P8\n I 9 P9\n|10 Limit",
        b"PERIODS\nENDATA\n|2 Limit",
        b"PERIODS\n A Z P\nENDATA\n|3 Limit",
        b"|0 NoEnd",
        b"* c\n\n|0 NoEnd",
        b"TIME\nPERIODS\n A Z P\n* e\n|3 NoEnd",
        b"PERIODS\n A Z P\n A X Q\n B\n|3 Unknown",
        b"FOO\n#\n|2 LongLine",
        b"TIME\nPERIODS\n A Z P\n B 2 Q\nENDATA\n#|6 LongLine",
    ];
    assert_eq!(rt; first_wrong(rt.alloc(), LETTERS, rows.as_slice())?, 36);
    Ok(())
}

#[test]
fn time_files_of_small_and_farm(rt: HostRuntime) -> Result<(), Fail> {
    let alloc = rt.alloc();
    let farm: [&[u8]; 1] = [
        b"TIME FARM\nPERIODS\n X1 LAND T1\n Y1 WHEAT T2\nENDATA\n|T1 0 0;T2 3 1;",
    ];
    assert_eq!(rt; first_wrong(alloc, FARM, farm.as_slice())?, 1);
    let small: [&[u8]; 3] = [
        b"TIME SMALL\nPERIODS\n X COST T1\n Y NEED T2\nENDATA\n|T1 0 0;T2 1 0;",
        b"TIME SMALL\nPERIODS\n X COST T1\n Y NEED T1\nENDATA\n|4 Twice",
        b"TIME SMALL\nPERIODS\n X NEED T1\n Y NEED T2\nENDATA\n|4 Order",
    ];
    assert_eq!(rt; first_wrong(alloc, SMALL, small.as_slice())?, 3);
    Ok(())
}

// Whether each cut from one length on, up to another, tells this.
fn cuts_tell(
    alloc: Global,
    core: &Core,
    text: &[u8],
    start: usize,
    end: usize,
    want: &[u8],
) -> Result<bool, AllocError> {
    for length in start..end {
        let cut = text.get(..length).unwrap_or(b"");
        if time_text(alloc, core, cut)?.as_slice() != want {
            return Ok(false);
        }
    }
    Ok(true)
}

#[test]
fn cuts_of_small(rt: HostRuntime) -> Result<(), Fail> {
    let alloc = rt.alloc();
    let core = read_core(alloc, SMALL)?;
    let text = SMALL_TIME.as_bytes();
    let rows: [(usize, usize, &[u8]); 11] = [
        (0, 1, b"0 NoEnd"),
        (1, 4, b"1 Section"),
        (4, 12, b"1 NoEnd"),
        (12, 18, b"2 Section"),
        (18, 21, b"2 NoEnd"),
        (21, 28, b"3 Fields"),
        (28, 32, b"3 NoEnd"),
        (32, 39, b"4 Fields"),
        (39, 42, b"4 NoEnd"),
        (42, 47, b"5 Section"),
        (47, 49, b"T1 0 0;T2 1 0;"),
    ];
    for (start, end, want) in rows {
        assert!(rt;
            cuts_tell(alloc, &core, text, start, end, want)?,
            "from {start}"
        );
    }
    Ok(())
}

#[test]
fn stages_of_columns_and_rows(rt: HostRuntime) -> Result<(), Fail> {
    let core = read_core(rt.alloc(), LETTERS)?;
    let periods = read_time(
        rt.alloc(),
        b"PERIODS\n A Z P\n C 1 Q\n D 4 R\nENDATA\n",
        &core,
    )?;
    let columns: [u8; 5] = [1, 1, 2, 3, 3];
    for (column, want) in columns.iter().enumerate() {
        assert_eq!(rt; periods.stage_of_column(column as u32), *want);
    }
    let rows: [u8; 5] = [2, 2, 2, 3, 3];
    for (row, want) in rows.iter().enumerate() {
        assert_eq!(rt; periods.stage_of_row(row as u32), *want);
    }
    Ok(())
}
