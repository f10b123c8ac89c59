ghost use Rattle.std.specs.Prelude.{◌≡◌, ◌<◌, length, slice_index};
ghost use Rattle.base_words.specs.Sums.{number_at};
ghost use Rattle.put_codec.specs.Entries.{FitsLayout, part_words};
ghost use Rattle.put_codec.specs.Layouts.{width_of};

use crate::layout::{Layout, start};
use run_calls::Put;
use word_codec::{Cell, cell_word};

// The cell at a place of a put.
fn cell_at(put: &Put, place: usize) -> Cell
    requires multiplier { place < length put.now.multipliers.values }
    requires x { place < length put.now.x }
    ensures multiplier { result.multiplier ≡ number_at put.now.multipliers.values place }
    ensures x { result.x ≡ number_at put.now.x place }
{
    Cell {
        multiplier: put.multipliers.values.as_slice()[place],
        x: put.x.as_slice()[place],
    }
}

/// A word of a rank's part of a put: three for each of the rank's cells, its
/// multiplier's high and low bits and its value.
pub fn part_word(put: &Put, layout: &Layout, rank: usize, index: usize) -> u64
    requires rank { rank < layout.now.ranks }
    requires index { index < width_of layout.now rank }
    requires put { FitsLayout layout.now put.now }
    ensures { result ≡ slice_index (part_words layout.now rank put.now) index }
{
    let cell = cell_at(put, start(layout, rank) + index / 3);
    cell_word(&cell, index % 3)
}
