use crate::{Cell, NotCanonical, cell_word, decode_cell, decode_reply, reply_word};
use std::process::Abort;
use std::rt::HostRuntime;
use std::test::Fail;

/// The greatest word.
const ONES: u64 = 0xffff_ffff_ffff_ffff;

/// Whether a multiplier and a value have these words, and these words alone
/// them.
fn are_cell(cell: Cell, words: [u64; 3]) -> bool {
    let [first, second, third] = words;
    cell_word(&cell, 0) == first
        && cell_word(&cell, 1) == second
        && cell_word(&cell, 2) == third
        && decode_cell(words) == Ok(cell)
}

/// The same of a reply.
fn are_reply(value: Option<i128>, words: [u64; 3]) -> bool {
    let [first, second, third] = words;
    reply_word(value, 0) == first
        && reply_word(value, 1) == second
        && reply_word(value, 2) == third
        && decode_reply(words) == Ok(value)
}

#[test]
fn cells(rt: HostRuntime) -> Result<(), Fail> {
    let negative = Cell {
        multiplier: -10,
        x: 3,
    };
    assert!(rt; are_cell(negative, [ONES, 0xffff_ffff_ffff_fff6, 3]));
    let great = Cell {
        multiplier: 1 << 64,
        x: -1_000_000_000,
    };
    assert!(rt; are_cell(great, [1, 0, 0xffff_ffff_c465_3600]));
    let off = NotCanonical { word: 2 };
    assert!(rt; decode_cell([0, 0, 1_000_000_001]) == Err(off));
    assert!(rt; decode_cell([0, 0, 0xffff_ffff_c465_35ff]) == Err(off));
    Ok(())
}

#[test]
fn replies(rt: HostRuntime) -> Result<(), Fail> {
    assert!(rt; are_reply(None, [0, 0, 0]));
    assert!(rt; are_reply(Some(0), [1, 0, 0]));
    assert!(rt; are_reply(Some(-1), [1, ONES, ONES]));
    assert!(rt; decode_reply([2, 0, 0]) == Err(NotCanonical { word: 0 }));
    assert!(rt; decode_reply([0, 1, 1]) == Err(NotCanonical { word: 1 }));
    assert!(rt; decode_reply([0, 0, 1]) == Err(NotCanonical { word: 2 }));
    Ok(())
}
