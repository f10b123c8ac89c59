ghost use Rattle.std.specs.Prelude.{◌≡◌, ◌+◌, ◌++◌, decimal, OnOk};
ghost use Rattle.std.specs.Fmt.{signed_decimal};
ghost use Rattle.text_lines.specs.Lines.{limit_text};

use itoa::Buffer;
use std::alloc::AllocError;

/// Puts a word and a number that may be negative to a line.
pub fn put_number(line: &mut Vec<u8>, word: &[u8], n: i128) -> Result<(), AllocError>
    ensures { OnOk result (line.new.items ≡ line.old.items ++ word.now ++ signed_decimal n) }
{
    let mut buffer = Buffer::new();
    line.extend_from_slice(word)?;
    line.extend_from_slice(buffer.format(n).as_bytes())
}

/// Puts a word and a bound to a line, `none` where there is none.
pub fn put_limit(line: &mut Vec<u8>, word: &[u8], limit: Option<i128>) -> Result<(), AllocError>
    ensures { OnOk result (line.new.items ≡ line.old.items ++ word.now ++ limit_text limit) }
{
    match limit {
        Some(limit) => put_number(line, word, limit),
        None => {
            line.extend_from_slice(word)?;
            line.extend_from_slice(b"none")
        }
    }
}

/// Puts a word and the number behind one that counts from 0 to a line.
pub fn put_next(line: &mut Vec<u8>, word: &[u8], n: u64) -> Result<(), AllocError>
    ensures { OnOk result (line.new.items ≡ line.old.items ++ word.now ++ decimal (n + 1)) }
{
    put_number(line, word, i128::from(n) + 1)
}
