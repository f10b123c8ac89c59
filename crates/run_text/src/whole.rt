ghost use Rattle.std.specs.Prelude.{◌∷◌, ◌++◌, ◌<ℤ◌, ◌^◌, pos, neg_ℤ, IfSome};
ghost use Rattle.std.specs.List.{concat};
ghost use Rattle.io_edge.specs.Faults.{Counts};
ghost use Rattle.run_text.specs.Bodies.{body_lines_of, first_line, last_lines};
ghost use Rattle.run_text.specs.Puts.{PutsBody, PutsText, text_fault};
ghost use Rattle.run_text.specs.RunLines.{end_text, event_lines_of, spokes_lines_from};
ghost use Rattle.text_lines.specs.Lines.{line_of};

use crate::bounds::{put_first, put_last};
use crate::events::put_events;
use crate::fault::TextFault;
use crate::lines::run_end_line;
use crate::puts::put_text;
use crate::spokes::put_spokes;
use crate::worth::{Worth, worth_if_any, worth_of};
use io_edge::Sink;
use run_log::{End, Log};
use sp_model::Run;
use std::alloc::Global;
use text_lines::unit;

// Writes the line of the end.
fn put_end<K: Sink>(alloc: Global, out: &mut K, end: End) -> Result<(), TextFault>
    ensures text { PutsText (line_of (end_text end)) (K.written out.old) (K.written out.new)
        result }
    ensures count { Counts (K.count out.old) (K.count out.new) (text_fault result) }
{
    let Ok(line) = run_end_line(alloc, end) else {
        return Err(TextFault::Memory);
    };
    put_text(out, &line)
}

// Writes the first pair, and a line for each event.
fn put_begin<K: Sink>(alloc: Global, out: &mut K, log: &Log) -> Result<(), TextFault>
    ensures text { PutsText (first_line log.now.first ++ concat (event_lines_of log.now.events))
        (K.written out.old) (K.written out.new) result }
    ensures count { Counts (K.count out.old) (K.count out.new) (text_fault result) }
{
    match put_first(alloc, out, log.first) {
        Ok(()) => put_events(alloc, out, log.events.as_slice()),
        Err(fault) => Err(fault),
    }
}

// Writes the end, and what each spoke answered.
fn put_answered<K: Sink>(alloc: Global, out: &mut K, log: &Log) -> Result<(), TextFault>
    ensures text { PutsText
        (line_of (end_text log.now.end) ++ concat (spokes_lines_from 0 log.now.spokes))
        (K.written out.old) (K.written out.new) result }
    ensures count { Counts (K.count out.old) (K.count out.new) (text_fault result) }
{
    match put_end(alloc, out, log.end) {
        Ok(()) => put_spokes(alloc, out, log.spokes.as_slice()),
        Err(fault) => Err(fault),
    }
}

// Writes all lines, with what the last bounds are worth.
fn put_lines<K: Sink>(
    alloc: Global,
    out: &mut K,
    log: &Log,
    lower: &Worth,
    upper: &Option<Worth>,
) -> Result<(), TextFault>
    ensures text { PutsText (concat (body_lines_of log.now lower.now upper.now))
        (K.written out.old) (K.written out.new) result }
    ensures count { Counts (K.count out.old) (K.count out.new) (text_fault result) }
{
    match put_begin(alloc, out, log) {
        Ok(()) => (),
        Err(fault) => return Err(fault),
    }
    match put_answered(alloc, out, log) {
        Ok(()) => put_last(alloc, out, lower, upper),
        Err(fault) => Err(fault),
    }
}

/// Writes the text of a run behind its heading, from the first pair to the last
/// bounds, one put a line. Where a put fails or memory is refused, a front of it is
/// written, and nothing is put behind it. The last bounds are above `i128::MIN`.
pub fn body<K: Sink>(alloc: Global, run: &Run, log: &Log, out: &mut K) -> Result<(), TextFault>
    requires lower { neg_ℤ (pos (2 ^ 127)) <ℤ log.now.lower }
    requires upper { IfSome log.now.upper (λ upper. neg_ℤ (pos (2 ^ 127)) <ℤ upper.value) }
    ensures text { PutsBody run.now log.now (K.written out.old) (K.written out.new) result }
    ensures count { Counts (K.count out.old) (K.count out.new) (text_fault result) }
{
    let unit = unit(run);
    let lower = worth_of(log.lower, unit);
    let upper = worth_if_any(&log.upper, unit);
    put_lines(alloc, out, log, &lower, &upper)
}
