ghost use Rattle.std.specs.Prelude.{◌≡◌, ◌≢◌, ◌≤◌, ◌<◌, ◌+◌, ◌^◌, All, IfOk, IfSome};
ghost use Rattle.lagrangian_spoke.specs.Spokes.{IsPutOf, StandsFor};
ghost use Rattle.lagrangian_spoke.specs.declared.spoke.Phase.TheVariants.{Ended};
ghost use Rattle.put_read.specs.Reads.{ReadsPuts};
ghost use Rattle.put_read.specs.SpokeReads.{ReadsSpoke};
ghost use Rattle.spoke_tests.specs.Benches.{IsBench};
ghost use Rattle.spoke_tests.specs.Seats.{IsBoard, StaysBut, viewed};

use crate::bench::Bench;
use crate::placing::{width, write_step};
use lagrangian_spoke::{LagrangianSpoke, Phase};
use log_words::SpokeStep;
use plain_board::PlainBoard;
use put_codec::RunMeaning;
use put_read::{PutReader, ReplyRead, SpokeReader};
use run_calls::Put;
use sp_model::{MAX_ITERATIONS, Run};
use stamped_read::Read;
use std::alloc::{AllocError, Global};
use window_words::Board;

/// The put with this number.
pub fn put_at<'a>(puts: &'a [Put], run: &Run, number: u64) -> Option<&'a Put>
    requires { All (IsPutOf run.now) puts.now }
    ensures { IfSome result (λ put. IsPutOf run.now put.now × (put.now.number ≡ number)) }
{
    let _run = run;
    for put in puts {
        if put.number == number {
            return Some(put);
        }
    }
    None
}

/// The number of the put that a rank writes next and the steps of it, after one more
/// step.
fn counted(width: usize, next: u64, step: usize) -> (u64, usize)
    requires width { width < 2 ^ 32 }
    requires next { next ≤ 100000 }
    requires step { step < width + 2 }
    ensures closed { step ≡ width + 1 → (result.0 ≡ next + 1) × (result.1 ≡ 0) }
    ensures goes { step < width + 1 → (result.0 ≡ next) × (result.1 ≡ step + 1) }
{
    if step > width {
        (next + 1, 0)
    } else {
        (next, step + 1)
    }
}

/// The rank's next step, where there is a put for it to write.
fn write_on(bench: &mut Bench, run: &Run, rank: usize)
    requires bench { IsBench run.now bench.old }
    requires rank { rank < run.now.options.ranks }
    ensures { IsBench run.now bench.new }
{
    let next = bench.nexts[rank];
    if next > MAX_ITERATIONS {
        return;
    }
    let Some(put) = put_at(bench.puts.as_slice(), run, next) else {
        return;
    };
    let step = bench.steps[rank];
    write_step(&mut bench.board, run, put, rank, step);
    let (next, step) = counted(width(run, rank), next, step);
    bench.nexts[rank] = next;
    bench.steps[rank] = step;
}

/// The spoke's next step at its seat.
fn spoke_step(
    alloc: Global,
    run: &Run,
    board: &mut PlainBoard<RunMeaning>,
    spoke: &mut LagrangianSpoke,
) -> Result<SpokeStep, AllocError>
    requires board { IsBoard run.now board.old }
    requires stands { StandsFor run.now (viewed board.old (run.now.options.ranks + 1)) spoke.old }
    requires going { spoke.old.phase ≢ Ended }
    ensures stands { IfOk result
        (λ _. StandsFor run.now (viewed board.new (run.now.options.ranks + 1)) spoke.new) }
    ensures stays { StaysBut (run.now.options.ranks + 1) board.old board.new }
{
    board.select(run.options.ranks + 1);
    spoke.step(alloc, run, board)
}

/// The spoke's next step, where it hasn't ended.
fn reply_on(alloc: Global, bench: &mut Bench, run: &Run) -> Result<(), AllocError>
    requires { IsBench run.now bench.old }
    ensures { IfOk result (λ _. IsBench run.now bench.new) }
{
    if bench.spoke.phase == Phase::Ended {
        return Ok(());
    }
    bench.told = spoke_step(alloc, run, &mut bench.board, &mut bench.spoke)?;
    Ok(())
}

/// The reader's next step at the second spoke's seat.
fn read_step(run: &Run, board: &mut PlainBoard<RunMeaning>, reader: &mut PutReader) -> Read
    requires board { IsBoard run.now board.old }
    requires spokes { 3 ≤ run.now.options.lagrangian }
    requires reads { ReadsPuts run.now (viewed board.old (run.now.options.ranks + 2)) reader.old }
    ensures reads { ReadsPuts run.now (viewed board.new (run.now.options.ranks + 2)) reader.new }
    ensures stays { StaysBut (run.now.options.ranks + 2) board.old board.new }
{
    board.select(run.options.ranks + 2);
    reader.step(board)
}

/// The reader's next step.
fn read_on(bench: &mut Bench, run: &Run)
    requires { IsBench run.now bench.old }
    ensures { IsBench run.now bench.new }
{
    bench.read = read_step(run, &mut bench.board, &mut bench.reader);
}

/// The next step of the reader of replies at the third spoke's seat.
fn poll_step(run: &Run, board: &mut PlainBoard<RunMeaning>, poll: &mut SpokeReader) -> ReplyRead
    requires board { IsBoard run.now board.old }
    requires spokes { 3 ≤ run.now.options.lagrangian }
    requires reads { ReadsSpoke run.now (viewed board.old (run.now.options.ranks + 3)) poll.old }
    ensures reads { ReadsSpoke run.now (viewed board.new (run.now.options.ranks + 3)) poll.new }
    ensures stays { StaysBut (run.now.options.ranks + 3) board.old board.new }
{
    board.select(run.options.ranks + 3);
    poll.step(board)
}

/// The next step of the reader of replies.
fn poll_on(bench: &mut Bench, run: &Run)
    requires { IsBench run.now bench.old }
    ensures { IsBench run.now bench.new }
{
    bench.polled = poll_step(run, &mut bench.board, &mut bench.poll);
}

/// The hub stops, where it hasn't.
fn stop_on(bench: &mut Bench, run: &Run)
    requires { IsBench run.now bench.old }
    ensures { IsBench run.now bench.new }
{
    let _run = run;
    if bench.is_stopped {
        return;
    }
    bench.board.select(0);
    bench.board.stop(1);
    bench.is_stopped = true;
}

/// A step of a rank, of the spoke or of a reader, or the hub's stop; no step of any
/// other letter.
pub fn turn(alloc: Global, bench: &mut Bench, run: &Run, actor: u8) -> Result<(), AllocError>
    requires { IsBench run.now bench.old }
    ensures { IfOk result (λ _. IsBench run.now bench.new) }
{
    match actor {
        b'1' => write_on(bench, run, 0),
        b'2' => {
            if run.options.ranks == 2 {
                write_on(bench, run, 1);
            }
        }
        b's' => reply_on(alloc, bench, run)?,
        b'r' => read_on(bench, run),
        b'p' => poll_on(bench, run),
        b'x' => stop_on(bench, run),
        _ => (),
    }
    Ok(())
}
