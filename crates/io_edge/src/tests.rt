use crate::streams::read_counted;
use crate::{
    EdgeFault, FileShelf, LoadFault, MemoryShelf, MemorySink, OutSink, Shelf, Sink, SureShelf,
    SureSink,
};
use std::alloc::Global;
use std::fs;
use std::io::{self, Read, Write};
use std::test::Fail;

fn is_answer(got: &Result<Vec<u8>, LoadFault>, want: Result<&[u8], LoadFault>) -> bool {
    match (got, want) {
        (Ok(bytes), Ok(wanted)) => bytes.as_slice() == wanted,
        (Err(fault), Err(wanted)) => *fault == wanted,
        _ => false,
    }
}

#[test]
fn shelves_load_and_store(rt: HostRuntime) -> Result<(), Fail> {
    let alloc = rt.alloc();
    let mut sure = SureShelf::new(alloc);
    let mut memory = MemoryShelf::new(alloc, vec![in alloc; 2u64, 7]?);
    sure.add("a", b"abc")?;
    memory.add("a", b"ab")?;
    memory.add("a", b"abc")?;
    sure.add("e", b"")?;
    memory.add("e", b"")?;
    let none: Result<&[u8], LoadFault> = Ok(b"");
    let whole: Result<&[u8], LoadFault> = Ok(b"abc");
    // A name, a limit, what the sure shelf answers and counts, and what the
    // one does whose second call fails.
    for (name, limit, first, count, second, counted) in [
        ("a", 3usize, whole, 0u64, whole, 0u64),
        ("a", 9, whole, 0, Err(LoadFault::Failed), 1),
        (
            "a",
            2,
            Err(LoadFault::TooLong),
            0,
            Err(LoadFault::TooLong),
            1,
        ),
        ("b", 9, Err(LoadFault::Failed), 1, Err(LoadFault::Failed), 2),
        ("e", 0, none, 1, none, 2),
    ] {
        assert!(rt;
            is_answer(&sure.load(alloc, name, limit), first),
            "{name} {limit}"
        );
        assert!(rt;
            is_answer(&memory.load(alloc, name, limit), second),
            "{name} {limit}"
        );
        assert_eq!(rt;
            (sure.faults(), memory.faults()),
            (count, counted),
            "{name} {limit}"
        );
    }
    assert!(rt; sure.store("b", b"x").is_ok() && sure.store("b", b"yz").is_ok());
    assert!(rt; memory.store("b", b"x").is_ok());
    assert_eq!(rt; memory.store("b", b"yz"), Err(EdgeFault::Failed));
    assert_eq!(rt; (sure.faults(), memory.faults()), (1, 3));
    assert_eq!(rt; sure.file("b"), Some("yz".as_bytes()));
    assert_eq!(rt; memory.file("b"), Some("x".as_bytes()));
    assert_eq!(rt;
        (sure.file("a"), memory.file("a")),
        (Some("abc".as_bytes()), Some("abc".as_bytes()))
    );
    assert!(rt; sure.file("c").is_none() && memory.file("c").is_none());
    Ok(())
}

#[test]
fn sinks_take_pieces(rt: HostRuntime) -> Result<(), Fail> {
    let alloc = rt.alloc();
    let mut sure = SureSink::new(alloc);
    let mut memory = MemorySink::new(alloc, vec![in alloc; 2u64]?);
    let mut held = Vec::new(alloc);
    let mut stream = OutSink::new(&mut held);
    assert!(rt; sure.put(b"a").is_ok() && sure.put(b"bc").is_ok());
    assert!(rt; stream.put(b"a").is_ok() && stream.put(b"bc").is_ok());
    assert!(rt; memory.put(b"a").is_ok());
    assert_eq!(rt; memory.put(b"bc"), Err(EdgeFault::Failed));
    assert!(rt; memory.put(b"d").is_ok());
    assert_eq!(rt;
        (sure.faults(), memory.faults(), stream.faults()),
        (0, 1, 0)
    );
    assert_eq!(rt; sure.bytes(), "abc".as_bytes());
    assert_eq!(rt; memory.bytes(), "ad".as_bytes());
    assert_eq!(rt; held.as_slice(), "abc".as_bytes());
    Ok(())
}

// A stream that takes one byte a call, and none when it holds so many.
#[derive(Drop)]
struct Narrow {
    held: Vec<u8>,
    room: usize,
}

impl Write for Narrow {
    fn write(&mut self, bytes: &[u8]) -> io::Result<usize> {
        if self.held.len() >= self.room || bytes.is_empty() {
            return Ok(0);
        }
        self.held.extend_from_slice(&bytes[..1])?;
        Ok(1)
    }

    fn flush(&mut self) -> io::Result<()> {
        Ok(())
    }
}

fn make_narrow(alloc: Global, room: usize) -> Narrow {
    Narrow {
        held: Vec::new(alloc),
        room,
    }
}

#[test]
fn a_short_write_is_no_fault(rt: HostRuntime) {
    let mut stream = make_narrow(rt.alloc(), 9);
    let mut sink = OutSink::new(&mut stream);
    assert_eq!(rt; sink.put(b"abcd"), Ok(()));
    assert_eq!(rt; sink.put(b"ef"), Ok(()));
    assert_eq!(rt; sink.faults(), 0);
    assert_eq!(rt; stream.held.as_slice(), "abcdef".as_bytes());
}

#[test]
fn a_write_of_none_is_a_fault(rt: HostRuntime) {
    let mut stream = make_narrow(rt.alloc(), 3);
    let mut sink = OutSink::new(&mut stream);
    assert_eq!(rt; sink.put(b"abcd"), Err(EdgeFault::Failed));
    assert_eq!(rt; sink.put(b"e"), Err(EdgeFault::Failed));
    assert_eq!(rt; sink.faults(), 2);
    assert_eq!(rt; stream.held.as_slice(), "abc".as_bytes());
}

// A stream that gives so many bytes, one a call, and then fails.
#[derive(Drop)]
struct Broken {
    left: usize,
}

impl Read for Broken {
    fn read(&mut self, buf: &mut [u8]) -> io::Result<usize> {
        if self.left == 0 {
            return Err(io::Error::from(io::ErrorKind::TimedOut));
        }
        self.left -= 1;
        if buf.is_empty() {
            return Ok(0);
        }
        buf[0] = 7;
        Ok(1)
    }
}

#[test]
fn a_read_that_fails_is_a_fault(rt: HostRuntime) {
    // How many bytes come before the failure, the limit, the answer, the count.
    for (left, limit, answer, count) in [
        (0usize, 9usize, LoadFault::Failed, 1u64),
        (9, 9, LoadFault::Failed, 1),
        (9, 8, LoadFault::TooLong, 0),
    ] {
        let mut faults = 0u64;
        let read = read_counted(rt.alloc(), &mut Broken { left }, limit, &mut faults);
        assert!(rt; is_answer(&read, Err(answer)), "{left} {limit}");
        assert_eq!(rt; faults, count, "{left} {limit}");
    }
}

#[test]
fn files_are_loaded_and_stored(rt: HostRuntime) -> Result<(), Fail> {
    let alloc = rt.alloc();
    let name = "io_edge_files_are_loaded_and_stored";
    let mut shelf = FileShelf::new(&rt);
    // The file is made longer, shorter and empty, and is as it was stored last.
    for len in [9000usize, 70000, 3, 0] {
        let bytes = vec![in alloc; 7u8; len]?;
        assert_eq!(rt; shelf.store(name, &bytes), Ok(()), "{len}");
        assert!(rt;
            is_answer(&shelf.load(alloc, name, len), Ok(&bytes)),
            "{len}"
        );
        let longer: Result<&[u8], LoadFault> = Err(LoadFault::TooLong);
        let shorter: Result<&[u8], LoadFault> = Ok(&bytes);
        let wanted = if len == 0 { shorter } else { longer };
        assert!(rt;
            is_answer(&shelf.load(alloc, name, len.saturating_sub(1)), wanted),
            "{len}"
        );
    }
    fs::remove_file(&rt, name)?;
    assert_eq!(rt; shelf.faults(), 0);
    Ok(())
}

#[test]
fn what_files_refuse_is_counted(rt: HostRuntime) {
    let alloc = rt.alloc();
    let mut shelf = FileShelf::new(&rt);
    // A file that isn't there, no name, and a folder.
    for (name, count) in [("io_edge_no_such_file", 1u64), ("", 2), (".", 3)] {
        assert!(rt;
            is_answer(&shelf.load(alloc, name, 9), Err(LoadFault::Failed)),
            "{name}"
        );
        assert_eq!(rt; shelf.faults(), count, "{name}");
    }
    // No name, a folder, and a device that is always full.
    for (name, count) in [("", 4u64), (".", 5), ("/dev/full", 6)] {
        assert_eq!(rt; shelf.store(name, b"a"), Err(EdgeFault::Failed), "{name}");
        assert_eq!(rt; shelf.faults(), count, "{name}");
    }
}
