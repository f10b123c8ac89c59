use crate::{Line, LineFault, NameFault, Names, lines};
use std::alloc::{AllocError, Global};
use std::test::Fail;

// The number of a line, whether it is a header or data, and its fields.
fn write_line(
    alloc: Global,
    out: &mut Vec<u8>,
    bytes: &[u8],
    line: &Line,
) -> Result<(), AllocError> {
    let number = format!(in alloc; "{}", line.number)?;
    out.extend_from_slice(number.as_bytes())?;
    out.push(if line.header { b'h' } else { b'd' })?;
    for k in 0..line.fields.len() {
        out.push(b' ')?;
        out.extend_from_slice(line.field(bytes, k))?;
    }
    out.push(b';').map_err(|_| AllocError)
}

fn told(alloc: Global, bytes: &[u8]) -> Result<Vec<u8>, LineFault> {
    let found = lines(alloc, bytes)?;
    let mut out = Vec::new(alloc);
    for line in found.as_slice() {
        write_line(alloc, &mut out, bytes, line).map_err(|_| LineFault::Memory)?;
    }
    Ok(out)
}

// A first byte, so many bytes of one kind behind it, and an end.
fn long_line(
    alloc: Global,
    first: u8,
    byte: u8,
    count: usize,
    end: &[u8],
) -> Result<Vec<u8>, AllocError> {
    let mut text = Vec::new(alloc);
    text.push(first)?;
    for _ in 0..count {
        text.push(byte)?;
    }
    text.extend_from_slice(end)?;
    Ok(text)
}

#[test]
fn reads_lines(rt: HostRuntime) -> Result<(), Fail> {
    let alloc = rt.alloc();
    let rows: [(&[u8], &[u8]); 11] = [
        (b"", b""),
        (b"\n\n", b""),
        (b" \t \n*comment\nNAME x\n", b"3h NAME x;"),
        (b"ROWS\r\n N\tcost\r\n", b"1h ROWS;2d N cost;"),
        (b" a \t b\r", b"1d a b\r;"),
        (b"a\r\r\n", b"1h a\r;"),
        (b" *a\n", b"1d *a;"),
        (b"\r\nx", b"2h x;"),
        (b"  a  b", b"1d a b;"),
        (b"a\n*\xc8\n~ \tb\n", b"1h a;3h ~ b;"),
        (b" b\x0b\x0c\n", b"1d b\x0b\x0c;"),
    ];
    for (bytes, want) in rows {
        let out = told(alloc, bytes)?;
        assert_eq!(rt; out.as_slice(), want);
    }
    Ok(())
}

#[test]
fn refuses_lines(rt: HostRuntime) -> Result<(), Fail> {
    let alloc = rt.alloc();
    let rows: [(&[u8], LineFault); 5] = [
        (b"a\n b\xc8\n", LineFault::NotAscii { line: 2 }),
        (b"*\n\x08", LineFault::NotAscii { line: 2 }),
        (b"\x7f\n", LineFault::NotAscii { line: 1 }),
        (b"\n\na\x00\n\xff\n", LineFault::NotAscii { line: 3 }),
        (b" \x80", LineFault::NotAscii { line: 1 }),
    ];
    for (bytes, want) in rows {
        assert_eq!(rt; told(alloc, bytes).err(), Some(want));
    }
    let long_rows: [(u8, u8, usize, &[u8], Option<LineFault>); 6] = [
        (b'a', b'a', 1023, b"\r\n", None),
        (
            b'a',
            b'a',
            1024,
            b"\n",
            Some(LineFault::TooLong { line: 1 }),
        ),
        (
            b'a',
            b'a',
            1023,
            b"\r",
            Some(LineFault::TooLong { line: 1 }),
        ),
        (b'a', 200, 1024, b"\n", Some(LineFault::TooLong { line: 1 })),
        (
            b'a',
            200,
            1023,
            b"\n",
            Some(LineFault::NotAscii { line: 1 }),
        ),
        (b'*', 200, 1999, b"\n\n", None),
    ];
    for (first, byte, count, end, want) in long_rows {
        let bytes = long_line(alloc, first, byte, count, end)?;
        assert_eq!(rt; told(alloc, &bytes).err(), want);
    }
    Ok(())
}

#[test]
fn numbers_names(rt: HostRuntime) -> Result<(), Fail> {
    let mut names = Names::new(rt.alloc());
    let rows: [(&[u8], Result<u32, NameFault>); 4] = [
        (b"cost", Ok(0)),
        (b"cap", Ok(1)),
        (b"cost", Err(NameFault::Twice { first: 0 })),
        (b"cap ", Ok(2)),
    ];
    for (name, want) in rows {
        assert!(rt; names.len() < 4);
        assert_eq!(rt; names.add(name), want);
    }
    assert_eq!(rt; names.len(), 3);
    assert_eq!(rt; names.find(b"cap"), Some(1));
    assert_eq!(rt; names.find(b"ca"), None);
    assert_eq!(rt; names.name(2), Some(b"cap ".as_slice()));
    assert_eq!(rt; names.name(3), None);
    Ok(())
}
