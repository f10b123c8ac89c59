ghost use Rattle.std.specs.Prelude.{◌≡◌, ◌<◌, ◌+◌, ◌^◌};
ghost use Rattle.stamped_read.specs.Promises.{IsSameGroup};
ghost use Rattle.window_tests.specs.Phases.{viewed, HasPut, IsLeaders, IsPutting};
ghost use Rattle.window_tests.specs.Phases.{IsReadAt, StaysBut, WritesAt};

use crate::tiny::{Tiny, word_at};
use plain_board::PlainBoard;
use stamped_read::{Read, StampedReader};
use window_words::Board;

/// Opens the entry after `last`.
fn open_next(board: &mut PlainBoard<Tiny>, window: usize, last: u64)
    requires leads { IsLeaders window (last + 1) board.old }
    requires put { HasPut window last (viewed board.old (window + 1)) }
    ensures putting { IsPutting window last 0 (viewed board.new (window + 1)) }
    ensures stays { StaysBut (window + 1) board.old board.new }
{
    board.select(window + 1);
    board.open_put(last + 1);
}

/// Puts the next word of the entry after `last`.
fn put_next(board: &mut PlainBoard<Tiny>, window: usize, last: u64, count: usize)
    requires leads { IsLeaders window (last + 1) board.old }
    requires more { count < board.old.0.width }
    requires putting { IsPutting window last count (viewed board.old (window + 1)) }
    ensures putting { IsPutting window last (count + 1) (viewed board.new (window + 1)) }
    ensures stays { StaysBut (window + 1) board.old board.new }
{
    board.select(window + 1);
    board.put_word(word_at(window, last + 1, count));
}

/// Closes the entry after `last`.
fn close_next(board: &mut PlainBoard<Tiny>, window: usize, last: u64)
    requires leads { IsLeaders window (last + 1) board.old }
    requires putting { IsPutting window last board.old.0.width (viewed board.old (window + 1)) }
    ensures put { HasPut window (last + 1) (viewed board.new (window + 1)) }
    ensures stays { StaysBut (window + 1) board.old board.new }
{
    board.select(window + 1);
    board.close_put();
}

/// The next step of the put of the entry after `last`.
pub fn write_step(board: &mut PlainBoard<Tiny>, window: usize, last: u64, width: usize, step: usize)
    requires leads { IsLeaders window (last + 1) board.old }
    requires width { width ≡ board.old.0.width }
    requires step { step < width + 2 }
    requires writes { WritesAt width window last step (viewed board.old (window + 1)) }
    ensures writes { WritesAt width window last (step + 1) (viewed board.new (window + 1)) }
    ensures stays { StaysBut (window + 1) board.old board.new }
{
    if step == 0 {
        open_next(board, window, last);
    } else if step <= width {
        put_next(board, window, last, step - 1);
    } else {
        close_next(board, window, last);
    }
}

/// The next step of a reading from the hub's seat.
pub fn read_step(board: &mut PlainBoard<Tiny>, reader: &mut StampedReader) -> Read
    requires { IsReadAt board.old reader.old }
    ensures reads { IsReadAt board.new reader.new }
    ensures stays { StaysBut 0 board.old board.new }
    ensures group { IsSameGroup reader.old reader.new }
{
    board.select(0);
    reader.step(board)
}

/// The puts that are closed and the steps of the next, after one more step.
pub fn counted(width: usize, last: u64, step: usize) -> (u64, usize)
    requires last { last < 2 ^ 62 }
    requires step { step < width + 2 }
    requires width { width < 2 ^ 32 }
    ensures closed { step ≡ width + 1 → (result.0 ≡ last + 1) × (result.1 ≡ 0) }
    ensures goes { step < width + 1 → (result.0 ≡ last) × (result.1 ≡ step + 1) }
{
    if step == width + 1 {
        (last + 1, 0)
    } else {
        (last, step + 1)
    }
}
