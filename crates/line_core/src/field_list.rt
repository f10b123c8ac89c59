ghost use Rattle.std.specs.Prelude.{◌≡◌, ℕ, ◌+◌, ◌^◌, ◌++◌, ◌<◌, length, position, IfOk, IfSome, OnOk};
ghost use Rattle.line_core.specs.Fields.{is_blank, fields_at, run_span, span_text};

use std::alloc::{AllocError, Global};
use wide_num::List;

/// The bytes of a file from `start`, counted from 0, up to `end`, which isn't
/// one of them.
#[derive(Clone, Copy, Debug, Drop, PartialEq, Eq)]
pub struct Span {
    pub start: usize,
    pub end: usize,
}

impl Span {
    /// The bytes of the span in the file `bytes`. There are none where the span
    /// doesn't lie in the file.
    pub fn text<'a>(&self, bytes: &'a [u8]) -> &'a [u8]
        ensures { result.now ≡ span_text bytes.now self.now }
    {
        if self.start <= self.end && self.end <= bytes.len() {
            &bytes[self.start..self.end]
        } else {
            &bytes[..0]
        }
    }
}

fn next_blank(text: &[u8]) -> Option<usize>
    ensures place { result ≡ position is_blank text.now }
    ensures within { IfSome result (λ at. at < length text.now) }
{
    text.iter().position(|byte| *byte == b' ' || *byte == b'\t')
}

fn push_run(spans: &mut List<Span>, start: usize, count: usize) -> Result<(), AllocError>
    requires { start + count < 2 ^ 64 }
    ensures { OnOk result (spans.new ≡ spans.old ++ run_span start count) }
{
    if count == 0 {
        return Ok(());
    }
    spans.push(Span {
        start,
        end: start + count,
    })
}

/// The fields of a text that begins at the byte `start` of its file.
pub fn fields(alloc: Global, start: usize, text: &[u8]) -> Result<List<Span>, AllocError>
    requires { start + length text.now < 2 ^ 64 }
    ensures { IfOk result (λ spans. spans ≡ fields_at start text.now) }
{
    let mut spans = List::new(alloc);
    let mut at = 0;
    while let Some(count) = next_blank(&text[at..]) {
        push_run(&mut spans, start + at, count)?;
        at += count + 1;
    }
    push_run(&mut spans, start + at, text.len() - at)?;
    Ok(spans)
}
