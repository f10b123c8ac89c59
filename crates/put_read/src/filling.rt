ghost use Rattle.std.specs.Prelude.{◌≡◌, ◌<◌, ◌+◌, ◌*◌, ◌/◌, ◌^◌, ℤ, length, FitsSigned};
ghost use Rattle.std.specs.Int.{w128};
ghost use Rattle.base_words.specs.Sums.{number_at};
ghost use Rattle.put_codec.specs.Entries.{AgreeBelow, IsSpelled};
ghost use Rattle.put_read.specs.Cells.{HasCell, HasCells, HasPlaces, KeepsShape};
ghost use Rattle.run_calls.specs.declared.put.Put.{Put};
ghost use Rattle.word_codec.specs.Spelling.{IsValue};

use run_calls::Put;
use word_codec::{Cell, decode_cell};

// The cell that has the three words of this number, and zeros where no cell has
// them.
fn cell_of(words: &[u64], index: usize) -> Cell
    requires { index < length words.now / 3 }
    ensures { (multiplier x : ℤ) → FitsSigned w128 multiplier → IsValue x →
        HasCell words.now index multiplier x →
        (result.multiplier ≡ multiplier) × (result.x ≡ x) }
{
    let three = [words[3 * index], words[3 * index + 1], words[3 * index + 2]];
    match decode_cell(three) {
        Ok(cell) => cell,
        Err(_) => Cell {
            multiplier: 0,
            x: 0,
        },
    }
}

// Puts a cell in its place.
fn set_cell(put: &mut Put, place: usize, cell: Cell)
    requires { HasPlaces put.old place 1 }
    ensures shape { KeepsShape put.old put.new }
    ensures agrees { (given : Put) → AgreeBelow place put.old given →
        cell.multiplier ≡ number_at given.multipliers.values place →
        cell.x ≡ number_at given.x place → AgreeBelow (place + 1) put.new given }
{
    put.multipliers.values.set(place, cell.multiplier);
    put.x.set(place, cell.x);
}

/// Takes the cells that have these words into a put, from a place on. Where they
/// are those of a put that agrees with it before that place, it agrees with it
/// behind them too.
pub fn take_part(words: &[u64], start: usize, put: &mut Put)
    requires places { HasPlaces put.old start (length words.now / 3) }
    requires small { start + length words.now / 3 < 2 ^ 64 }
    ensures shape { KeepsShape put.old put.new }
    ensures agrees { (given : Put) → IsSpelled given → HasCells words.now start given →
        AgreeBelow start put.old given → AgreeBelow (start + length words.now / 3) put.new given }
{
    for index in 0..words.len() / 3 {
        set_cell(put, start + index, cell_of(words, index));
    }
}
