ghost use Rattle.std.specs.Prelude.{◌≡◌, ◌≤◌};
ghost use Rattle.window_tests.specs.Phases.{viewed, StaysBut};
ghost use Rattle.window_tests.specs.Ranks.{IsRunning};

use crate::tiny::Tiny;
use plain_board::PlainBoard;
use std::alloc::{AllocError, Global};
use window_words::Board;

/// What a seat is told of the hub's stop.
fn asked(board: &mut PlainBoard<Tiny>, seat: usize) -> u64
    requires { seat ≤ board.old.0.windows }
    ensures { StaysBut seat board.old board.new }
{
    board.select(seat);
    board.stopped()
}

/// The hub's seat, which hasn't stopped, stops with this number.
fn stop_hub(board: &mut PlainBoard<Tiny>, last: u64)
    requires runs { IsRunning (viewed board.old 0) }
    requires last { 1 ≤ last }
    ensures { board.new.0 ≡ board.old.0 }
{
    board.select(0);
    board.stop(last);
}

/// What the seat of the first window's owner is told before the hub of a fresh board
/// on one thread stops, and what it and the hub's own are told then.
pub fn stop_told(alloc: Global, meaning: Tiny, last: u64) -> Result<[u64; 3], AllocError>
    requires windows { 1 ≤ meaning.windows }
    requires last { 1 ≤ last }
{
    let mut board = PlainBoard::new(alloc, meaning)?;
    let before = asked(&mut board, 1);
    stop_hub(&mut board, last);
    let behind = asked(&mut board, 1);
    Ok([before, behind, asked(&mut board, 0)])
}
