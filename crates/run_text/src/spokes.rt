ghost use Rattle.std.specs.Prelude.{map};
ghost use Rattle.std.specs.List.{concat};
ghost use Rattle.io_edge.specs.Faults.{Counts};
ghost use Rattle.run_text.specs.Puts.{PutsText, text_fault};
ghost use Rattle.run_text.specs.RunLines.{answer_text, spoke_lines_of, spoke_text, spokes_lines_from};
ghost use Rattle.text_lines.specs.Lines.{line_of};

use crate::fault::TextFault;
use crate::lines::{answer_line, spoke_line};
use crate::puts::put_text;
use io_edge::Sink;
use log_words::{Answer, SpokeKind, SpokeLog};
use std::alloc::Global;
use wide_num::List;

// Writes the line of an answer.
fn put_answer<K: Sink>(alloc: Global, out: &mut K, answer: Answer) -> Result<(), TextFault>
    ensures text { PutsText (line_of (answer_text answer)) (K.written out.old)
        (K.written out.new) result }
    ensures count { Counts (K.count out.old) (K.count out.new) (text_fault result) }
{
    let Ok(line) = answer_line(alloc, answer) else {
        return Err(TextFault::Memory);
    };
    put_text(out, &line)
}

// Writes a line for each answer.
fn put_answers<K: Sink>(alloc: Global, out: &mut K, answers: &[Answer]) -> Result<(), TextFault>
    ensures text { PutsText (concat (map (λ answer. line_of (answer_text answer)) answers.now))
        (K.written out.old) (K.written out.new) result }
    ensures count { Counts (K.count out.old) (K.count out.new) (text_fault result) }
{
    for answer in answers {
        match put_answer(alloc, out, *answer) {
            Ok(()) => (),
            Err(fault) => return Err(fault),
        }
    }
    Ok(())
}

// Writes the line of a spoke, counted from 0.
fn put_kind<K: Sink>(alloc: Global, out: &mut K, i: u64, kind: SpokeKind) -> Result<(), TextFault>
    ensures text { PutsText (line_of (spoke_text i kind)) (K.written out.old) (K.written out.new)
        result }
    ensures count { Counts (K.count out.old) (K.count out.new) (text_fault result) }
{
    let Ok(line) = spoke_line(alloc, i, kind) else {
        return Err(TextFault::Memory);
    };
    put_text(out, &line)
}

// Writes the lines of a spoke, counted from 0.
fn put_spoke<K: Sink>(alloc: Global, out: &mut K, i: u64, spoke: &SpokeLog) -> Result<(), TextFault>
    ensures text { PutsText (concat (spoke_lines_of i spoke.now)) (K.written out.old)
        (K.written out.new) result }
    ensures count { Counts (K.count out.old) (K.count out.new) (text_fault result) }
{
    match put_kind(alloc, out, i, spoke.kind) {
        Ok(()) => put_answers(alloc, out, spoke.answers.as_slice()),
        Err(fault) => Err(fault),
    }
}

/// Writes the lines of all spokes, one after another.
pub fn put_spokes<K: Sink>(alloc: Global, out: &mut K, spokes: &[SpokeLog]) -> Result<(), TextFault>
    ensures text { PutsText (concat (spokes_lines_from 0 spokes.now)) (K.written out.old)
        (K.written out.new) result }
    ensures count { Counts (K.count out.old) (K.count out.new) (text_fault result) }
{
    for i in 0..spokes.len() {
        match put_spoke(alloc, out, i as u64, &spokes[i]) {
            Ok(()) => (),
            Err(fault) => return Err(fault),
        }
    }
    Ok(())
}
