ghost use Rattle.std.specs.Prelude.{◌≡◌, ◌<◌, false, length, MatchResult, None, OnErr, Some};
ghost use Rattle.io_edge.specs.Faults.{Counts, CountsMissing, CountsOne, Rises, edge_fault, edge_refused, load_fault};
ghost use Rattle.io_edge.specs.Streams.{PutTakes, ReadsWithin, TakesWhole};

use crate::faults::{EdgeFault, LoadFault};
use std::alloc::Global;
use std::io::{Read, Write};

// Writes all bytes; false where a write failed or took nothing.
fn write_whole<W: Write>(out: &mut W, bytes: &[u8]) -> bool
    ensures takes { TakesWhole result (W.contents out.old) (W.contents out.new) bytes.now }
    ensures some { result ≡ false → 0 < length bytes.now }
{
    let mut at = 0;
    while at < bytes.len() {
        match out.write(&bytes[at..]) {
            Ok(len) if 0 < len => at += len,
            _ => return false,
        }
    }
    true
}

// Writes all bytes, and counts a fault where that fails. It asks for no memory.
pub fn put_counted<W: Write>(out: &mut W, bytes: &[u8], faults: &mut u64) -> Result<(), EdgeFault>
    ensures stream { PutTakes W.contents out.old out.new bytes.now result }
    ensures count { Counts faults.old faults.new (edge_fault result) }
    ensures one_fault { CountsOne faults.old faults.new (edge_fault result) }
    ensures never_refused { edge_refused result ≡ false }
    ensures some { OnErr result (0 < length bytes.now) }
{
    if write_whole(out, bytes) {
        return Ok(());
    }
    *faults = faults.saturating_add(1);
    Err(EdgeFault::Failed)
}

// What a call of the runtime gave; where it failed, a fault is counted.
pub fn counted<T, E: Drop>(done: Result<T, E>, faults: &mut u64) -> Option<T>
    ensures value { MatchResult done (λ value. result ≡ Some value) (λ _. result ≡ None) }
    ensures count { CountsMissing faults.old faults.new result }
    ensures rises { result ≡ None → Rises faults.old faults.new }
{
    match done {
        Ok(value) => Some(value),
        Err(_) => {
            *faults = faults.saturating_add(1);
            None
        }
    }
}

// All that is left to read, which is at most `limit` bytes. A read that fails
// is a fault, and ends it.
pub fn read_counted<S: Read>(
    alloc: Global,
    source: &mut S,
    limit: usize,
    faults: &mut u64,
) -> Result<Vec<u8>, LoadFault>
    ensures reads { ReadsWithin (λ read. read.items) (S.remaining source.old) limit result }
    ensures count { Counts faults.old faults.new (load_fault result) }
    ensures one_fault { CountsOne faults.old faults.new (load_fault result) }
{
    let mut piece = [0u8; 4096];
    let mut bytes = Vec::new(alloc);
    loop {
        let Some(len) = counted(source.read(&mut piece), faults) else {
            return Err(LoadFault::Failed);
        };
        if len == 0 {
            return Ok(bytes);
        }
        if limit - bytes.len() < len {
            return Err(LoadFault::TooLong);
        }
        let Ok(()) = bytes.extend_from_slice(&piece[..len]) else {
            return Err(LoadFault::Memory);
        };
    }
}
