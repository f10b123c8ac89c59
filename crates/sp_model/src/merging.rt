ghost use Rattle.std.specs.Prelude.{◌≡◌, [], ◌∷◌, ◌++◌, take, IfOk, OnOk};
ghost use Rattle.boxed_problem.specs.BoxedFacts.{AreAscending};
ghost use Rattle.sp_model.specs.Changes.{passed_by, place_of, put_entries};

use crate::placing::{place_of, stands_at};
use boxed_problem::Entry;
use std::alloc::{AllocError, Global};

// Appends the entries that stand before another, and that one; how many entries
// are passed by it: those, and the one of its place.
fn append_next(all: &mut Vec<Entry>, rest: &[Entry], entry: &Entry) -> Result<usize, AllocError>
    ensures all { OnOk result
        (all.new.items
        ≡ (all.old.items ++ take (place_of entry.now rest.now) rest.now) ++ entry.now ∷ []) }
    ensures passed { IfOk result (λ count. count ≡ passed_by entry.now rest.now) }
{
    let before = place_of(rest, entry);
    all.extend_from_slice(&rest[..before])?;
    all.push(*entry)?;
    if stands_at(rest, before, entry) {
        Ok(before + 1)
    } else {
        Ok(before)
    }
}

/// The entries of one list with those of another, which ascend, put over them, in
/// one pass over both.
pub fn merged(alloc: Global, under: &[Entry], over: &[Entry]) -> Result<Vec<Entry>, AllocError>
    requires { AreAscending over.now }
    ensures { IfOk result (λ all. all.items ≡ put_entries under.now over.now) }
{
    let mut all = Vec::new(alloc);
    let mut at = 0;
    for entry in over {
        at += append_next(&mut all, &under[at..], entry)?;
    }
    all.extend_from_slice(&under[at..])?;
    Ok(all)
}

/// Entries in the order of columns and rows, of each place the last one.
pub fn ordered(alloc: Global, entries: &[Entry]) -> Result<Vec<Entry>, AllocError>
    ensures { IfOk result (λ all. all.items ≡ put_entries [] entries.now) }
{
    if entries.len() <= 1 {
        let all = Vec::from_slice(alloc, entries)?;
        return Ok(all);
    }
    let middle = entries.len() / 2;
    let front = ordered(alloc, &entries[..middle])?;
    let back = ordered(alloc, &entries[middle..])?;
    merged(alloc, front.as_slice(), back.as_slice())
}
