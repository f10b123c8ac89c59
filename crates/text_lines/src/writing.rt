ghost use Rattle.std.specs.Prelude.{◌≡◌, ◌++◌, codes, decimal, IfOk, OnOk};
ghost use Rattle.std.specs.Fmt.{signed_decimal};
ghost use Rattle.text_lines.specs.Lines.{limit_text, line_of, name_at};

use itoa::Buffer;
use line_core::Names;
use std::alloc::{AllocError, Global};
use wide_num::{List, Text};

/// Puts a word and a number to a line.
pub fn put_count(line: &mut Vec<u8>, word: &[u8], n: u64) -> Result<(), AllocError>
    ensures { OnOk result (line.new.items ≡ line.old.items ++ word.now ++ decimal n) }
{
    let mut buffer = Buffer::new();
    line.extend_from_slice(word)?;
    line.extend_from_slice(buffer.format(n).as_bytes())
}

/// Puts a word and a number that may be negative to a line.
pub fn put_number(line: &mut Vec<u8>, word: &[u8], n: i128) -> Result<(), AllocError>
    ensures { OnOk result (line.new.items ≡ line.old.items ++ word.now ++ signed_decimal n) }
{
    let mut buffer = Buffer::new();
    line.extend_from_slice(word)?;
    line.extend_from_slice(buffer.format(n).as_bytes())
}

/// Puts a word and a limit to a line, `none` where there is none.
pub fn put_limit(line: &mut Vec<u8>, word: &[u8], limit: Option<i128>) -> Result<(), AllocError>
    ensures { OnOk result (line.new.items ≡ line.old.items ++ word.now ++ limit_text limit) }
{
    match limit {
        Some(limit) => put_number(line, word, limit),
        None => {
            line.extend_from_slice(word)?;
            line.extend_from_slice(b"none")
        }
    }
}

// The name of a number; empty where there is none.
fn name_at(names: &Names, number: u32) -> &[u8]
    ensures { result.now ≡ name_at names.now number }
{
    match names.name(number) {
        Some(name) => name,
        None => b"",
    }
}

/// Puts a word and the name of a number to a line.
pub fn put_name(
    line: &mut Vec<u8>,
    word: &[u8],
    names: &Names,
    number: u32,
) -> Result<(), AllocError>
    ensures { OnOk result (line.new.items
        ≡ line.old.items ++ word.now ++ name_at names.now number) }
{
    line.extend_from_slice(word)?;
    line.extend_from_slice(name_at(names, number))
}

/// Ends a line by its newline.
pub fn end_line(line: Vec<u8>) -> Result<Text, AllocError>
    ensures { IfOk result (λ text. text ≡ line_of line.items) }
{
    let mut line = line;
    line.push(b'\n')?;
    Ok(List::from_vec(line))
}

/// A line of fixed words.
pub fn fixed_line(alloc: Global, words: &[u8]) -> Result<Text, AllocError>
    ensures { IfOk result (λ text. text ≡ line_of words.now) }
{
    end_line(Vec::from_slice(alloc, words)?)
}
