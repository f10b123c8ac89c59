ghost use Rattle.std.specs.Prelude.{◌≡◌, ◌+◌, ◌++◌, codes, decimal, IfOk, OnOk};
ghost use Rattle.run_text.specs.RunLines.{answer_text, end_text, event_text, kind_text, pair_text, source_text, spoke_text, take_text};
ghost use Rattle.text_lines.specs.Lines.{limit_text, line_of};

use crate::writing::{put_limit, put_next, put_number};
use log_words::{Answer, SpokeKind};
use run_log::{End, Event, Source};
use std::alloc::{AllocError, Global};
use text_lines::{end_line, fixed_line, put_count};
use wide_num::Text;

// Puts whose reply was taken to a line.
fn put_source(line: &mut Vec<u8>, source: Source) -> Result<(), AllocError>
    ensures { OnOk result (line.new.items
        ≡ line.old.items ++ codes "take " ++ source_text source) }
{
    match source {
        Source::Hub => line.extend_from_slice(b"take hub"),
        Source::Spoke(i) => put_next(line, b"take ", i as u64),
    }
}

// Puts a pair of bounds to a line.
fn put_pair(line: &mut Vec<u8>, lower: i128, upper: Option<i128>) -> Result<(), AllocError>
    ensures { OnOk result (line.new.items ≡ line.old.items ++ pair_text lower upper) }
{
    put_number(line, b" ", lower)?;
    put_limit(line, b" ", upper)
}

// The line of a take.
fn take_line(
    alloc: Global,
    source: Source,
    put: u64,
    value: Option<i128>,
    lower: i128,
    upper: Option<i128>,
) -> Result<Text, AllocError>
    ensures { IfOk result (λ text. text ≡ line_of (take_text source put value lower upper)) }
{
    let mut line = Vec::new(alloc);
    put_source(&mut line, source)?;
    put_count(&mut line, b" ", put)?;
    put_limit(&mut line, b" ", value)?;
    put_pair(&mut line, lower, upper)?;
    end_line(line)
}

// The line of a put.
fn put_line(alloc: Global, put: u64) -> Result<Text, AllocError>
    ensures { IfOk result (λ text. text ≡ line_of (codes "put " ++ decimal put)) }
{
    let mut line = Vec::new(alloc);
    put_count(&mut line, b"put ", put)?;
    end_line(line)
}

/// The line of a put or a take.
pub fn event_line(alloc: Global, event: Event) -> Result<Text, AllocError>
    ensures { IfOk result (λ text. text ≡ line_of (event_text event)) }
{
    match event {
        Event::Put { put } => put_line(alloc, put),
        Event::Take {
            source,
            put,
            value,
            lower,
            upper,
        } => take_line(alloc, source, put, value, lower, upper),
    }
}

// The line of a search that was spent, of this scenario.
fn spent_line(alloc: Global, scenario: u32) -> Result<Text, AllocError>
    ensures { IfOk result
        (λ text. text ≡ line_of (codes "end spent " ++ decimal (scenario + 1))) }
{
    let mut line = Vec::new(alloc);
    put_next(&mut line, b"end spent ", u64::from(scenario))?;
    end_line(line)
}

/// The line of a run's end.
pub fn run_end_line(alloc: Global, end: End) -> Result<Text, AllocError>
    ensures { IfOk result (λ text. text ≡ line_of (end_text end)) }
{
    match end {
        End::Agreed => fixed_line(alloc, b"end agreed"),
        End::Gap => fixed_line(alloc, b"end gap"),
        End::Iterations => fixed_line(alloc, b"end iterations"),
        End::Spent { scenario } => spent_line(alloc, scenario),
    }
}

// Puts the kind of a spoke to a line.
fn put_kind(line: &mut Vec<u8>, kind: SpokeKind) -> Result<(), AllocError>
    ensures { OnOk result (line.new.items ≡ line.old.items ++ kind_text kind) }
{
    match kind {
        SpokeKind::Lagrangian => line.extend_from_slice(b" lagrangian"),
        SpokeKind::Xhat => line.extend_from_slice(b" xhat"),
    }
}

/// The line of a spoke, counted from 0.
pub fn spoke_line(alloc: Global, i: u64, kind: SpokeKind) -> Result<Text, AllocError>
    ensures { IfOk result (λ text. text ≡ line_of (spoke_text i kind)) }
{
    let mut line = Vec::new(alloc);
    put_next(&mut line, b"spoke ", i)?;
    put_kind(&mut line, kind)?;
    end_line(line)
}

// The line of a reply.
fn reply_line(alloc: Global, put: u64, value: Option<i128>) -> Result<Text, AllocError>
    ensures { IfOk result (λ text. text
        ≡ line_of (codes "reading " ++ decimal put ++ codes " " ++ limit_text value)) }
{
    let mut line = Vec::new(alloc);
    put_count(&mut line, b"reading ", put)?;
    put_limit(&mut line, b" ", value)?;
    end_line(line)
}

// The line of a put that was skipped, since the search of this scenario was spent.
fn skip_line(alloc: Global, put: u64, scenario: u32) -> Result<Text, AllocError>
    ensures { IfOk result (λ text. text
        ≡ line_of (codes "skip " ++ decimal put ++ codes " " ++ decimal (scenario + 1))) }
{
    let mut line = Vec::new(alloc);
    put_count(&mut line, b"skip ", put)?;
    put_next(&mut line, b" ", u64::from(scenario))?;
    end_line(line)
}

/// The line of a spoke's answer.
pub fn answer_line(alloc: Global, answer: Answer) -> Result<Text, AllocError>
    ensures { IfOk result (λ text. text ≡ line_of (answer_text answer)) }
{
    match answer {
        Answer::Reply { put, value } => reply_line(alloc, put, value),
        Answer::Skip {
            put,
            scenario,
            opened: _,
        } => skip_line(alloc, put, scenario),
    }
}
