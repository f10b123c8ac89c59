ghost use Rattle.std.specs.Prelude.{◌≡◌, ◌<◌, ◌↔◌, IfErr, IfOk, IsTrue, slice_index};
ghost use Rattle.word_codec.specs.Spelling.{cell_words, AreCellWords, IsFirstOff, IsValue};

use crate::halves::{NotCanonical, high, joined, low};

/// How far from 0 the value of a nonleaf column may be.
const MAX_VALUE: i64 = 1_000_000_000;

/// A multiplier and a value of one nonleaf column in one scenario.
#[derive(Clone, Copy, PartialEq, Debug, Drop)]
pub struct Cell {
    pub multiplier: i128,
    pub x: i64,
}

/// Whether a nonleaf column may have this value.
fn is_value(x: i64) -> bool
    ensures { IsTrue result ↔ IsValue x }
{
    -MAX_VALUE <= x && x <= MAX_VALUE
}

/// A word of a multiplier and a value: the multiplier's high and low bits, then
/// the value.
pub fn cell_word(cell: &Cell, index: usize) -> u64
    requires { index < 3 }
    ensures { result ≡ slice_index (cell_words cell.now.multiplier cell.now.x) index }
{
    match index {
        0 => high(cell.multiplier),
        1 => low(cell.multiplier),
        _ => cell.x.cast_unsigned(),
    }
}

/// The multiplier and the value with these words. `NotCanonical` comes exactly
/// where no multiplier and value have them, at the first word that shows it.
pub fn decode_cell(words: [u64; 3]) -> Result<Cell, NotCanonical>
    ensures ok { IfOk result (λ cell. words ≡ cell_words cell.multiplier cell.x) }
    ensures value { IfOk result (λ cell. IsValue cell.x) }
    ensures err { IfErr result (λ fault. IsFirstOff AreCellWords words fault.word) }
{
    let multiplier = joined(words[0], words[1]);
    let x = words[2].cast_signed();
    if is_value(x) {
        Ok(Cell { multiplier, x })
    } else {
        Err(NotCanonical { word: 2 })
    }
}
