use dec_core::Decimal;
use sample_files::{FARM_CORE, PAIR_CORE, SMALL_CORE};
use smps_core::{
    Core, CoreFault, CoreKind, box_lines_law, cells_law, entries_law, first_fault_law, names_law,
    read_core,
};
use std::alloc::{AllocError, Global};
use std::test::Fail;

const MANY: &str =
    "ROWS\n N COST\n L A\n G B\n E C\n N FREE\nCOLUMNS\n X C 1.5 FREE 9\n X A -2\n M 'MARKER' 'INTORG'\n Y B 4 COST 7\n N 'MARKER' 'INTEND'\n Z COST 1\nBOUNDS\n MI X\n UP X -0.5\n FR Y\n BV OTHER Y\n LO Z 1.5\n LO Z 2\n UP Z 1e30\nRANGES\n R C -3 B 2\n S A 8\n R COST 1\nRHS\n A 5 COST -6\n RHS B 8\nENDATA\n";

// What the files answer that are cut off after each of the bytes, from none on.
const SMALL_CUTS: &str =
    "nsssnnnnnnnnsssnnnffnnnnnnffnnnnnssssssnnnfffffffnnfffffnnnfffffffnnfffffnnssnnnffffrrrrrnnsssssnnnfffffffccnnnnfffffffddnnnsssss..";

const FARM_CUTS: &str =
    "nsssnnnnnnnsssnnnffnnnnnnffnnnnnnffnnnnnnnffnnnnnnffnnnnnnssssssnnnffffffffnnnnfffffnnnfffffffffnnnnnffffffffnnnnfffffnnnffffffffnnnffffffffnnnnfffffnnnfffffffffnnnnffffffffnnnnffffffnnnffffffffnnnnfffffnnnffffffffdnnnnffffffdnnnffffffffdnnnnfffffdnnnffffffffdnnnffffffdnnnffffffffdnnnffffffdnnssnnnffffrrrrrnnnnrrrrrrnnnnnffffdddddnnnnsssssnnnfffffffcccnnnnnsssss..";

/// Seven lines: two rows of kind N, two constraint rows, and a column.
const HEAD: &[u8] = b"ROWS\n N COST\n G NEED\n L CAP\n N FREE\nCOLUMNS\n X COST 1 NEED 1\n";

fn add_number(alloc: Global, out: &mut Vec<u8>, number: Decimal) -> Result<(), AllocError> {
    let text = format!(in alloc; " {}/{}", number.mantissa, number.places)?;
    out.extend_from_slice(text.as_bytes())
}

fn add_rows(alloc: Global, out: &mut Vec<u8>, core: &Core) -> Result<(), AllocError> {
    for i in 0..core.row_names.len() {
        out.extend_from_slice(core.row_names.name(i as u32).unwrap_or(b"?"))?;
        let row = core.rows.as_slice()[i];
        let kind = format!(in alloc; " {:?}", row.kind)?;
        out.extend_from_slice(kind.as_bytes())?;
        add_number(alloc, out, row.right)?;
        if let Some(range) = row.range {
            add_number(alloc, out, range)?;
        }
        out.extend_from_slice(b";")?;
    }
    Ok(())
}

fn add_columns(alloc: Global, out: &mut Vec<u8>, core: &Core) -> Result<(), AllocError> {
    for j in 0..core.column_names.len() {
        out.extend_from_slice(core.column_names.name(j as u32).unwrap_or(b"?"))?;
        let column = core.columns.as_slice()[j];
        let box_text = format!(in alloc;
            " {:?} {:?} {}",
            column.lower, column.upper, column.marked
        )?;
        out.extend_from_slice(box_text.as_bytes())?;
        add_number(alloc, out, column.cost)?;
        out.extend_from_slice(b";")?;
    }
    Ok(())
}

fn add_entries(alloc: Global, out: &mut Vec<u8>, core: &Core) -> Result<(), AllocError> {
    for entry in core.entries.as_slice() {
        let place = format!(in alloc; "{} {}", entry.row, entry.column)?;
        out.extend_from_slice(place.as_bytes())?;
        add_number(alloc, out, entry.value)?;
        let line = format!(in alloc; " {};", entry.line)?;
        out.extend_from_slice(line.as_bytes())?;
    }
    Ok(())
}

// All the data of a core.
fn core_text(alloc: Global, bytes: &[u8]) -> Result<Vec<u8>, AllocError> {
    let mut out = Vec::new(alloc);
    match read_core(alloc, bytes) {
        Ok(core) => {
            out.extend_from_slice(core.objective.as_slice())?;
            add_number(alloc, &mut out, core.constant)?;
            out.extend_from_slice(b" ")?;
            out.extend_from_slice(core.right_name.as_slice())?;
            out.extend_from_slice(b"\n")?;
            add_rows(alloc, &mut out, &core)?;
            out.extend_from_slice(b"\n")?;
            add_columns(alloc, &mut out, &core)?;
            out.extend_from_slice(b"\n")?;
            add_entries(alloc, &mut out, &core)?;
        }
        Err(CoreFault::At { line, kind }) => {
            let fault = format!(in alloc; "{line} {kind:?}")?;
            out.extend_from_slice(fault.as_bytes())?;
        }
        Err(CoreFault::Memory) => return Err(AllocError),
    }
    Ok(out)
}

// A file's text behind a head, with a long word for each `#`.
fn spelled(alloc: Global, head: &[u8], tail: &[u8]) -> Result<Vec<u8>, AllocError> {
    let mut text = Vec::from_slice(alloc, head)?;
    for byte in tail {
        if *byte == b'#' {
            text.extend_from_slice([b'x'; 1025].as_slice())?;
        } else {
            text.push(*byte)?;
        }
    }
    Ok(text)
}

// Whether a row holds: what is told of its text, behind a head, stands behind `|`.
fn holds(alloc: Global, head: &[u8], row: &[u8]) -> Result<bool, AllocError> {
    let mut parts = row.split(|byte| *byte == b'|');
    let tail = parts.next().unwrap_or(b"");
    let want = parts.next().unwrap_or(b"");
    let text = spelled(alloc, head, tail)?;
    let found = core_text(alloc, text.as_slice())?;
    Ok(found.as_slice() == want)
}

// The number of the first row that doesn't hold, or how many there are.
fn first_wrong(alloc: Global, head: &[u8], rows: &[&[u8]]) -> Result<usize, AllocError> {
    for (number, row) in rows.iter().enumerate() {
        if !holds(alloc, head, row)? {
            return Ok(number);
        }
    }
    Ok(rows.len())
}

#[test]
fn cores_have_all_their_data(rt: HostRuntime) -> Result<(), Fail> {
    let alloc = rt.alloc();
    first_fault_law();
    cells_law();
    entries_law();
    box_lines_law();
    names_law();
    let small =
        "COST 0/0 RHS\nNEED Greater 2/0;\nX Some(0) Some(10) false 1/0;Y Some(0) Some(10) false 3/0;\n0 0 1/0 6;0 1 1/0 7;";
    assert_eq!(rt;
        core_text(alloc, SMALL_CORE.as_bytes())?.as_slice(),
        small.as_bytes()
    );
    let pair =
        "COST 0/0 RHS\nC1 Greater 2/0;C2 Greater 1/0;\nX Some(0) Some(10) false 1/0;Y1 Some(0) Some(10) false 3/0;Y2 Some(0) Some(10) false 3/0;\n0 0 1/0 7;1 0 1/0 8;0 1 1/0 9;1 2 1/0 10;";
    assert_eq!(rt;
        core_text(alloc, PAIR_CORE.as_bytes())?.as_slice(),
        pair.as_bytes()
    );
    let farm =
        "COST 0/0 RHS\nLAND Less 500/0;WHEAT Greater 200/0;CORN Greater 240/0;BEETS Greater 0/0;\nX1 Some(0) None false 150/0;X2 Some(0) None false 230/0;X3 Some(0) None false 260/0;Y1 Some(0) None false 238/0;Y2 Some(0) None false 210/0;W1 Some(0) None false -170/0;W2 Some(0) None false -150/0;W3 Some(0) Some(6000) false -36/0;W4 Some(0) None false -10/0;\n0 0 1/0 9;1 0 25/1 10;0 1 1/0 11;2 1 3/0 12;0 2 1/0 13;3 2 20/0 14;1 3 1/0 15;2 4 1/0 16;1 5 -1/0 17;2 6 -1/0 18;3 7 -1/0 19;3 8 -1/0 20;";
    assert_eq!(rt;
        core_text(alloc, FARM_CORE.as_bytes())?.as_slice(),
        farm.as_bytes()
    );
    let many =
        "COST 6/0 RHS\nA Less 5/0;B Greater 0/0 2/0;C Equal 0/0 -3/0;\nX None Some(-1) false 0/0;Y None None true 7/0;Z Some(2) None false 1/0;\n0 0 -2/0 9;2 0 15/1 8;1 1 4/0 11;";
    assert_eq!(rt;
        core_text(alloc, MANY.as_bytes())?.as_slice(),
        many.as_bytes()
    );
    Ok(())
}

#[test]
fn faults_of_headers_and_rows(rt: HostRuntime) -> Result<(), Fail> {
    let rows: [&[u8]; 21] = [
        b"|0 NoEnd",
        b"* NAME\n\n|0 NoEnd",
        b"NAME A B C\n|1 NoEnd",
        b" N COST\n|1 Section",
        b"NAME\n N COST\n|2 Section",
        b"NAME\nNAME\n|2 Section",
        b"ENDATA\n|1 Section",
        b"COLUMNS\n|1 Section",
        b"ROWS X\n|1 Fields",
        b"OBJSENSE\nROWS\n|1 Sense",
        b"ROWS\n N A\nOBJSENSE MAX\n|3 Sense",
        b"ROWS\nCOLUMNS\n|2 NoObjective",
        b"ROWS\n G A\nCOLUMNS\n|3 NoObjective",
        b"ROWS\n N A\n N A\n|3 Twice",
        b"ROWS\n N A\n N B\n G B\n|4 Twice",
        b"ROWS\n Q A\n|2 Fields",
        b"ROWS\n N A B\n|2 Fields",
        b"ROWS\n N \x01\n|2 NotAscii",
        b"ROW\n N \x01\n|2 NotAscii",
        b"#\n|1 LongLine",
        b"ROWS\n N A\n N A\n #\n|4 LongLine",
    ];
    assert_eq!(rt; first_wrong(rt.alloc(), b"", rows.as_slice())?, 21);
    Ok(())
}

#[test]
fn faults_behind_a_column(rt: HostRuntime) -> Result<(), Fail> {
    let rows: [&[u8]; 51] = [
        b"ENDATA\nanything|COST 0/0 RHS\nNEED Greater 0/0;CAP Less 0/0;\nX Some(0) None false 1/0;\n0 0 1/0 7;",
        b" X FREE 1 FREE 2\n X CAP 1\nENDATA\n|COST 0/0 RHS\nNEED Greater 0/0;CAP Less 0/0;\nX Some(0) None false 1/0;\n0 0 1/0 7;1 0 1/0 9;",
        b"BOUNDS\n FR X\n MI B X 7\n UP C X -1e30\n UP X 3\nRHS\n COST 1\nENDATA|COST -1/0 RHS\nNEED Greater 0/0;CAP Less 0/0;\nX None Some(3) false 1/0;\n0 0 1/0 7;",
        b"BOUNDS\n FX B X 2.5\n UP B X 3\nRANGES\n R CAP 1\n T CAP 1\nENDATA|COST 0/0 RHS\nNEED Greater 0/0;CAP Less 0/0 1/0;\nX Some(3) Some(3) false 1/0;\n0 0 1/0 7;",
        b" X NEED 2\nENDATA\n|8 Twice",
        b" X CAP 1 CAP 2\n|8 Twice",
        b" X COST 2\n|8 Twice",
        b" Y COST 1\n X CAP 1\n|9 Twice",
        b" M 'MARKER' 'INTORG'\n X CAP 1\n|9 Twice",
        b" M 'MARKER' 'INT'\n|8 Fields",
        b" M 'MARKER'\n|8 Fields",
        b" Y COST\n|8 Fields",
        b" Y COST 1 NEED\n|8 Fields",
        b" Y NOWHERE 1\n|8 UnknownRow",
        b" X NEED 1 NOWHERE x\n|8 UnknownRow",
        b" Y COST x NOWHERE 1\n|8 Number",
        b" Y COST 1 NEED 1e\n|8 Number",
        b" X FREE 1 FREE 2\n X FREE x\n|9 Number",
        b" Y COST 1e-10\n|8 TooManyPlaces",
        b" Y COST 1e37\n|8 TooLarge",
        b"ROWS\n|8 Section",
        b"COLUMNS\n|8 Section",
        b"NAME\n|8 Section",
        b"END\n|8 Section",
        b"ENDATA X\n|8 Fields",
        b" \n* \n|7 NoEnd",
        b"RHS\n RHS NEED 1\n RHS NEED 2\n|10 Twice",
        b"RHS\n NEED 1 NEED 2\n|9 Twice",
        b"RHS\n S NEED 1\n T NOWHERE x\n|10 Number",
        b"RHS\n S NEED 1\n NOWHERE x\n|10 Number",
        b"RHS\n RHS NOWHERE 1\n|9 UnknownRow",
        b"RHS\n RHS NEED 1 CAP\n|9 UnknownRow",
        b"RHS\n NEED\n|9 Fields",
        b"RHS\nRHS\n|9 Section",
        b"RANGES\n R COST 1\n R COST 1\n|10 Twice",
        b"RANGES\n R CAP 1e37\n|9 TooLarge",
        b"BOUNDS\n UP B X -1\n|9 BadBound",
        b"BOUNDS\n PL B X\n UP B X -2e9\n|10 BadBound",
        b"BOUNDS\n MI B X\n UP B X -1e20\n|10 BadBound",
        b"BOUNDS\n LO B X 1e20\n|9 BadBound",
        b"BOUNDS\n FX B X -1e40\n|9 BadBound",
        b"BOUNDS\n UP B X 1000000000.1\n|9 Limit",
        b"BOUNDS\n MI B X\n UP B X -2e9\n|10 Limit",
        b"BOUNDS\n UP B Z 1\n|9 UnknownColumn",
        b"BOUNDS\n UP B X\n|9 UnknownColumn",
        b"BOUNDS\n UP B X 1e-10\n|9 TooManyPlaces",
        b"BOUNDS\n UP B X 1\n UP C Z x\n|10 Number",
        b"BOUNDS\n XX B X 1\n|9 Fields",
        b"BOUNDS\n FR\n|9 Fields",
        b"BOUNDS\n FX B X 2.5\nENDATA\n|10 EmptyBox",
        b"BOUNDS\n LO B X 2.2\n UP B X 2.8\nENDATA\n|11 EmptyBox",
    ];
    assert_eq!(rt; first_wrong(rt.alloc(), HEAD, rows.as_slice())?, 51);
    Ok(())
}

// How many lines have a byte that isn't a blank.
fn lines_begun(bytes: &[u8]) -> u64 {
    let mut count = 0u64;
    let mut is_begun = false;
    for byte in bytes {
        if *byte == b'\n' {
            is_begun = false;
        } else if *byte != b' ' && !is_begun {
            is_begun = true;
            count = count.saturating_add(1);
        }
    }
    count
}

// A letter for what a file answers, `!` where its fault isn't at the last line.
fn letter_of(alloc: Global, bytes: &[u8]) -> u8 {
    match read_core(alloc, bytes) {
        Ok(_) => b'.',
        Err(CoreFault::At { line, kind }) => {
            if line != lines_begun(bytes) {
                return b'!';
            }
            match kind {
                CoreKind::NoEnd => b'n',
                CoreKind::Section => b's',
                CoreKind::Fields => b'f',
                CoreKind::Number => b'd',
                CoreKind::UnknownRow => b'r',
                CoreKind::UnknownColumn => b'c',
                _ => b'?',
            }
        }
        Err(CoreFault::Memory) => b'?',
    }
}

#[test]
fn cuts_after_each_byte(rt: HostRuntime) -> Result<(), Fail> {
    let alloc = rt.alloc();
    for (text, want) in [(SMALL_CORE, SMALL_CUTS), (FARM_CORE, FARM_CUTS)] {
        let bytes = text.as_bytes();
        let mut letters = Vec::new(alloc);
        for k in 0..bytes.len() {
            letters.push(letter_of(alloc, &bytes[..k]))?;
        }
        letters.push(letter_of(alloc, bytes))?;
        assert_eq!(rt; letters.as_slice(), want.as_bytes());
    }
    Ok(())
}
