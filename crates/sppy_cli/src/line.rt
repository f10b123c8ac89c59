ghost use Rattle.std.specs.Prelude.{◌≡◌, ◌≢◌, ◌++◌, IfOk, OnErr, codes, decimal};
ghost use Rattle.sppy_cli.specs.Statuses.{fault_text, status_line};
ghost use Rattle.text_lines.specs.Lines.{line_of};

use crate::kinds::{file_word, kind_word};
use crate::status::{InputFault, Status};
use itoa::Buffer;
use std::alloc::{AllocError, Global};
use text_lines::{end_line, fixed_line, put_count};
use wide_num::{List, Text};

// The line of a fault of a file.
fn fault_line(alloc: Global, fault: &InputFault) -> Result<Text, AllocError>
    ensures { IfOk result (λ line. line ≡ line_of (codes "sppy: " ++ fault_text fault.now)) }
{
    let mut line = Vec::from_slice(alloc, b"sppy: input ")?;
    line.extend_from_slice(file_word(fault.file))?;
    put_count(&mut line, b" line ", fault.line)?;
    line.push(b' ')?;
    line.extend_from_slice(kind_word(fault.kind))?;
    end_line(line)
}

// A line of a word and a count.
fn count_line(alloc: Global, word: &[u8], n: u64) -> Result<Text, AllocError>
    ensures { IfOk result (λ line. line ≡ line_of (word.now ++ decimal n)) }
{
    let mut line = Vec::new(alloc);
    put_count(&mut line, word, n)?;
    end_line(line)
}

// The line of a scenario, counted from 1, that used up its budget.
fn spent_line(alloc: Global, scenario: u64, opened: u64) -> Result<Text, AllocError>
    ensures { IfOk result
        (λ line. line
        ≡ line_of
        (codes "sppy: spent " ++ decimal scenario ++ codes " opened " ++ decimal opened)) }
{
    let mut line = Vec::new(alloc);
    put_count(&mut line, b"sppy: spent ", scenario)?;
    put_count(&mut line, b" opened ", opened)?;
    end_line(line)
}

// The line of a reach that is too great.
fn wide_line(alloc: Global, reach: u128) -> Result<Text, AllocError>
    ensures { IfOk result (λ line. line ≡ line_of (codes "sppy: wide " ++ decimal reach)) }
{
    let mut buffer = Buffer::new();
    let mut line = Vec::from_slice(alloc, b"sppy: wide ")?;
    line.extend_from_slice(buffer.format(reach).as_bytes())?;
    end_line(line)
}

impl Status {
    /// The line on standard error, with its newline; empty where all was done.
    pub fn line(&self, alloc: Global) -> Result<Text, AllocError>
        ensures line { IfOk result (λ line. line ≡ status_line self.now) }
        ensures done { OnErr result (self.now ≢ Status.Done) }
    {
        match self {
            Status::Done => Ok(List::new(alloc)),
            Status::Words => fixed_line(alloc, b"sppy: words"),
            Status::Input(fault) => fault_line(alloc, fault),
            Status::Infeasible { scenario } => count_line(
                alloc,
                b"sppy: infeasible ",
                u64::from(*scenario) + 1,
            ),
            Status::Spent { scenario, opened } => {
                spent_line(alloc, u64::from(*scenario) + 1, *opened)
            }
            Status::Wide { reach } => wide_line(alloc, *reach),
            Status::ReadFault { faults } => count_line(alloc, b"sppy: read fault ", *faults),
            Status::WriteFault { faults } => count_line(alloc, b"sppy: write fault ", *faults),
            Status::Memory => fixed_line(alloc, b"sppy: memory"),
        }
    }
}
