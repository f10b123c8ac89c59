ghost use Rattle.std.specs.Prelude.{◌≡◌, ◌+◌, ◌^◌, ◌++◌, ◌<◌, ◌≤◌, true, length, take, drop, position, Err, IfErr, IfOk, IfSome, OnErr, OnOk, is_some};
ghost use Rattle.std.specs.List.{All, AllPairs};
ghost use Rattle.std.specs.Option.{option_to_list};
ghost use Rattle.line_core.specs.SplitLines.{asks_memory, field_text, is_newline, lines_of, may_want_memory, read_line, without_return, Gives, GivesLine, IsAbove, IsAdded, IsFaultOf, IsLineFault, IsLineOf};
ghost use Rattle.line_core.specs.declared.line_list.LineFault.TheVariants.{Memory};

use crate::field_list::{Span, fields};
use crate::text_kinds::{is_comment, is_plain, is_unindented, next_newline, without_return};
use std::alloc::Global;
use wide_num::List;

/// A line that isn't a comment: its number in the file, counted from 1, whether
/// it begins with a byte that isn't a blank, and the places of its fields.
#[derive(Clone, Debug, Drop)]
pub struct Line {
    pub number: u64,
    pub header: bool,
    pub fields: List<Span>,
}

impl Line {
    /// The text of the field `k`, counted from 0, in the file `bytes`. It is
    /// empty where there is no such field.
    pub fn field<'a>(&self, bytes: &'a [u8], k: usize) -> &'a [u8]
        ensures { result.now ≡ field_text bytes.now k self.now }
    {
        match self.fields.as_slice().get(k) {
            Some(span) => span.text(bytes),
            None => &bytes[..0],
        }
    }
}

/// Why a file has no lines.
#[derive(Clone, Copy, Debug, Drop, PartialEq, Eq)]
pub enum LineFault {
    /// The line has a byte outside 9 to 126.
    NotAscii { line: u64 },
    /// The line has more than 1024 bytes.
    TooLong { line: u64 },
    /// There was no memory for the lines.
    Memory,
}

/// The greatest number of bytes of a line.
const MAX_LINE_BYTES: usize = 1024;

fn read_line(
    alloc: Global,
    number: u64,
    start: usize,
    text: &[u8],
) -> Result<Option<Line>, LineFault>
    requires { start + length text.now < 2 ^ 64 }
    ensures { GivesLine number start text.now result }
{
    if is_comment(text) {
        return Ok(None);
    }
    if MAX_LINE_BYTES < text.len() {
        return Err(LineFault::TooLong { line: number });
    }
    if !is_plain(text) {
        return Err(LineFault::NotAscii { line: number });
    }
    let header = is_unindented(text);
    let Ok(fields) = fields(alloc, start, text) else {
        return Err(LineFault::Memory);
    };
    Ok(Some(Line {
        number,
        header,
        fields,
    }))
}

fn push_line(lines: &mut List<Line>, line: Option<Line>) -> Result<(), LineFault>
    ensures ok { OnOk result (lines.new ≡ lines.old ++ option_to_list line) }
    ensures err { OnErr result ((result ≡ Err Memory) × (is_some line ≡ true)) }
{
    match line {
        Some(line) => lines.push(line).map_err(|_| LineFault::Memory),
        None => Ok(()),
    }
}

// Puts what a text is read as behind the lines.
fn add_line(
    alloc: Global,
    lines: &mut List<Line>,
    number: u64,
    start: usize,
    text: &[u8],
) -> Result<(), LineFault>
    requires { start + length text.now < 2 ^ 64 }
    ensures ok { OnOk result (IsAdded (read_line number start text.now) lines.old lines.new) }
    ensures err { IfErr result (IsLineFault number start text.now) }
{
    let line = read_line(alloc, number, start, text)?;
    push_line(lines, line)
}

// How many bytes stand before the next newline from a place on.
fn newline_after(bytes: &[u8], at: usize) -> Option<usize>
    requires { at ≤ length bytes.now }
    ensures place { result ≡ position is_newline (drop at bytes.now) }
    ensures within { IfSome result (λ count. at + count < length bytes.now) }
{
    next_newline(&bytes[at..])
}

// The text of so many bytes from a place on, which a newline follows.
fn text_at(bytes: &[u8], at: usize, count: usize) -> &[u8]
    requires { at + count ≤ length bytes.now }
    ensures text { result.now ≡ without_return (take count (drop at bytes.now)) }
    ensures short { length result.now ≤ count }
{
    without_return(&bytes[at..at + count])
}

fn read_lines(alloc: Global, bytes: &[u8]) -> Result<List<Line>, LineFault>
    ensures { Gives (may_want_memory bytes.now) (lines_of bytes.now) result }
{
    let mut found = List::new(alloc);
    let mut number = 1u64;
    let mut at = 0;
    while let Some(count) = newline_after(bytes, at) {
        add_line(alloc, &mut found, number, at, text_at(bytes, at, count))?;
        number += 1;
        at += count + 1;
    }
    add_line(alloc, &mut found, number, at, &bytes[at..])?;
    Ok(found)
}

/// The lines of a file that aren't comments, in order. A fault is that of the
/// first line that has one, and of its length before its bytes. `Memory` comes
/// only where a line that isn't a comment stands before the first fault.
pub fn lines(alloc: Global, bytes: &[u8]) -> Result<List<Line>, LineFault>
    ensures exact { Gives (may_want_memory bytes.now) (lines_of bytes.now) result }
    ensures within { IfOk result (All (IsLineOf bytes.now)) }
    ensures rise { IfOk result (AllPairs IsAbove) }
{
    read_lines(alloc, bytes)
}
