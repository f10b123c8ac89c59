ghost use Rattle.std.specs.Prelude.{◌≡◌, length};
ghost use Rattle.smps_words.specs.TextLines.{field, is_header, last_number, text_lines, text_of};

use line_core::Line;
use wide_num::same;

/// The number of the last line, 0 if there is none.
pub fn last_number(bytes: &[u8], lines: &[Line]) -> u64
    ensures { result ≡ last_number (text_lines bytes.now lines.now) }
{
    match lines.last() {
        Some(line) => line.number,
        None => 0,
    }
}

/// A line of a file with the bytes of the file.
#[derive(Clone, Copy)]
pub struct FileLine<'a> {
    pub bytes: &'a [u8],
    pub line: &'a Line,
}

impl<'a> FileLine<'a> {
    /// The text of the field `k`, counted from 0. It is empty where there is
    /// no such field.
    pub fn field(&self, k: usize) -> &'a [u8]
        ensures { result.now ≡ field k (text_of self.now) }
    {
        self.line.field(self.bytes, k)
    }

    /// How many fields there are.
    pub fn count(&self) -> usize
        ensures { result ≡ length (text_of self.now).fields }
    {
        self.line.fields.len()
    }

    /// Whether it is a header that begins with this word.
    pub fn is_header(&self, word: &[u8]) -> bool
        ensures { result ≡ is_header word.now (text_of self.now) }
    {
        self.line.header && same(self.field(0), word)
    }
}
