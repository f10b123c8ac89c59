ghost use Rattle.std.specs.Prelude.{◌≡◌, ◌++◌, codes, IfOk, OnOk};
ghost use Rattle.std.specs.List.{concat};
ghost use Rattle.io_edge.specs.Faults.{Counts};
ghost use Rattle.run_text.specs.Bodies.{first_line, last_lines, worth_or_none, worth_text};
ghost use Rattle.run_text.specs.Puts.{PutsText, text_fault};
ghost use Rattle.text_lines.specs.Lines.{line_of};

use crate::fault::TextFault;
use crate::puts::put_text;
use crate::worth::Worth;
use crate::writing::put_number;
use io_edge::Sink;
use std::alloc::{AllocError, Global};
use text_lines::{end_line, fixed_line};
use wide_num::Text;

// The line of the first pair.
fn first_line(alloc: Global, first: i128) -> Result<Text, AllocError>
    ensures { IfOk result (λ text. text ≡ first_line first) }
{
    let mut line = Vec::new(alloc);
    put_number(&mut line, b"first ", first)?;
    line.extend_from_slice(b" none")?;
    end_line(line)
}

/// Writes the first pair: a lower bound, and no upper one.
pub fn put_first<K: Sink>(alloc: Global, out: &mut K, first: i128) -> Result<(), TextFault>
    ensures text { PutsText (first_line first) (K.written out.old) (K.written out.new) result }
    ensures count { Counts (K.count out.old) (K.count out.new) (text_fault result) }
{
    let Ok(line) = first_line(alloc, first) else {
        return Err(TextFault::Memory);
    };
    put_text(out, &line)
}

// Puts a word, a bound and what it is worth to a line.
fn put_worth(
    alloc: Global,
    line: &mut Vec<u8>,
    word: &[u8],
    worth: &Worth,
) -> Result<(), AllocError>
    ensures { OnOk result (line.new.items ≡ line.old.items ++ word.now ++ worth_text worth.now) }
{
    let text = worth.value.text(alloc)?;
    put_number(line, word, worth.bound)?;
    line.extend_from_slice(b" = ")?;
    line.extend_from_slice(text.as_slice())
}

// The line of a bound, behind a word.
fn worth_line(alloc: Global, word: &[u8], worth: &Worth) -> Result<Text, AllocError>
    ensures { IfOk result (λ text. text ≡ line_of (word.now ++ worth_text worth.now)) }
{
    let mut line = Vec::new(alloc);
    put_worth(alloc, &mut line, word, worth)?;
    end_line(line)
}

// The line of an upper bound, where there is one.
fn upper_line(alloc: Global, upper: &Option<Worth>) -> Result<Text, AllocError>
    ensures { IfOk result (λ text. text ≡ line_of (codes "upper " ++ worth_or_none upper.now)) }
{
    match upper {
        Some(upper) => worth_line(alloc, b"upper ", upper),
        None => fixed_line(alloc, b"upper none"),
    }
}

// Writes the last lower bound.
fn put_lower<K: Sink>(alloc: Global, out: &mut K, lower: &Worth) -> Result<(), TextFault>
    ensures text { PutsText (line_of (codes "lower " ++ worth_text lower.now))
        (K.written out.old) (K.written out.new) result }
    ensures count { Counts (K.count out.old) (K.count out.new) (text_fault result) }
{
    let Ok(line) = worth_line(alloc, b"lower ", lower) else {
        return Err(TextFault::Memory);
    };
    put_text(out, &line)
}

// Writes the last upper bound, where there is one.
fn put_upper<K: Sink>(alloc: Global, out: &mut K, upper: &Option<Worth>) -> Result<(), TextFault>
    ensures text { PutsText (line_of (codes "upper " ++ worth_or_none upper.now))
        (K.written out.old) (K.written out.new) result }
    ensures count { Counts (K.count out.old) (K.count out.new) (text_fault result) }
{
    let Ok(line) = upper_line(alloc, upper) else {
        return Err(TextFault::Memory);
    };
    put_text(out, &line)
}

/// Writes the last pair.
pub fn put_last<K: Sink>(
    alloc: Global,
    out: &mut K,
    lower: &Worth,
    upper: &Option<Worth>,
) -> Result<(), TextFault>
    ensures text { PutsText (concat (last_lines lower.now upper.now)) (K.written out.old)
        (K.written out.new) result }
    ensures count { Counts (K.count out.old) (K.count out.new) (text_fault result) }
{
    match put_lower(alloc, out, lower) {
        Ok(()) => put_upper(alloc, out, upper),
        Err(fault) => Err(fault),
    }
}
