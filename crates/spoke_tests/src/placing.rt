//! A rank's seat, step by step.

ghost use Rattle.std.specs.Prelude.{◌≡◌, ◌+◌, ◌<◌, ◌^◌};
ghost use Rattle.lagrangian_spoke.specs.Spokes.{IsPutOf};
ghost use Rattle.put_codec.specs.Layouts.{layout_in, width_of};
ghost use Rattle.spoke_tests.specs.Seats.{IsBoard, IsFree, IsPutting, StaysBut, WritesAt, viewed};

use plain_board::PlainBoard;
use put_codec::{RunMeaning, cells, layout_of, part_word};
use run_calls::Put;
use sp_model::Run;
use window_words::Board;

/// Opens a rank's part of a put.
fn open_part(board: &mut PlainBoard<RunMeaning>, run: &Run, put: &Put, rank: usize)
    requires board { IsBoard run.now board.old }
    requires rank { rank < run.now.options.ranks }
    requires put { IsPutOf run.now put.now }
    requires free { IsFree rank put.now.number (viewed board.old (rank + 1)) }
    ensures putting { IsPutting rank put.now.number 0 (viewed board.new (rank + 1)) }
    ensures stays { StaysBut (rank + 1) board.old board.new }
{
    let _run = run;
    board.select(rank + 1);
    board.open_put(put.number);
}

/// Puts the next word of a rank's part.
fn put_next(board: &mut PlainBoard<RunMeaning>, run: &Run, put: &Put, rank: usize, index: usize)
    requires board { IsBoard run.now board.old }
    requires rank { rank < run.now.options.ranks }
    requires put { IsPutOf run.now put.now }
    requires more { index < width_of (layout_in run.now) rank }
    requires putting { IsPutting rank put.now.number index (viewed board.old (rank + 1)) }
    ensures putting { IsPutting rank put.now.number (index + 1) (viewed board.new (rank + 1)) }
    ensures stays { StaysBut (rank + 1) board.old board.new }
{
    let layout = layout_of(run);
    board.select(rank + 1);
    board.put_word(part_word(put, &layout, rank, index));
}

/// Closes a rank's part.
fn close_part(board: &mut PlainBoard<RunMeaning>, run: &Run, put: &Put, rank: usize)
    requires board { IsBoard run.now board.old }
    requires rank { rank < run.now.options.ranks }
    requires put { IsPutOf run.now put.now }
    requires putting { IsPutting rank put.now.number (width_of (layout_in run.now) rank)
        (viewed board.old (rank + 1)) }
    ensures free { IsFree rank (put.now.number + 1) (viewed board.new (rank + 1)) }
    ensures stays { StaysBut (rank + 1) board.old board.new }
{
    let _put = put;
    let _run = run;
    board.select(rank + 1);
    board.close_put();
}

/// How many words a rank's part has.
pub fn width(run: &Run, rank: usize) -> usize
    requires { rank < run.now.options.ranks }
    ensures value { result ≡ width_of (layout_in run.now) rank }
    ensures small { result < 2 ^ 32 }
{
    3 * cells(&layout_of(run), rank)
}

/// The next step of a rank's part, of which it has made so many.
pub fn write_step(
    board: &mut PlainBoard<RunMeaning>,
    run: &Run,
    put: &Put,
    rank: usize,
    step: usize,
)
    requires board { IsBoard run.now board.old }
    requires rank { rank < run.now.options.ranks }
    requires put { IsPutOf run.now put.now }
    requires step { step < width_of (layout_in run.now) rank + 2 }
    requires writes { WritesAt (width_of (layout_in run.now) rank) rank put.now.number step
        (viewed board.old (rank + 1)) }
    ensures writes { WritesAt (width_of (layout_in run.now) rank) rank put.now.number (step + 1)
        (viewed board.new (rank + 1)) }
    ensures stays { StaysBut (rank + 1) board.old board.new }
{
    if step == 0 {
        open_part(board, run, put, rank);
    } else if step <= width(run, rank) {
        put_next(board, run, put, rank, step - 1);
    } else {
        close_part(board, run, put, rank);
    }
}
