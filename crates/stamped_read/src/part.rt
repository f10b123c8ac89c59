ghost use Rattle.std.specs.Prelude.{◌≡◌, ◌<◌, IsTrue, ◌↔◌, IfOk};
ghost use Rattle.wide_num.specs.RoomContents.{with_room};
ghost use Rattle.stamped_read.specs.Readers.{emptied, longer_part};

use std::alloc::{AllocError, Global};
use std::marker::Model;

/// The words of one window that are read so far, with room for the others.
/// Contracts see the words, and how many are left.
#[derive(Drop)]
pub struct Part {
    buffer: Vec<u64>,
    len: usize,
}

impl Model for Part {
    ghost use Rattle.std.specs.Prelude.{ℕ, ◌-◌, ◌≤◌, length, take};
    ghost use Rattle.wide_num.specs.RoomContents.{Contents};

    ghost Value = { Contents ℕ };

    ghost view = { λ part. record {
      items = take part.len part.buffer.items;
      spare = length part.buffer.items - part.len;
    } };

    ghost invariant = { λ part. part.len ≤ length part.buffer.items };
}

impl Part {
    /// No words, and room for so many.
    pub fn new(alloc: Global, width: usize) -> Result<Part, AllocError>
        ensures { IfOk result (λ part. part ≡ with_room width) }
    {
        let buffer = vec![in alloc; 0; width]?;
        Ok(Part { buffer, len: 0 })
    }

    /// One more word, where one is left.
    pub fn push(&mut self, word: u64)
        requires { 0 < self.old.spare }
        ensures { self.new ≡ longer_part self.old word }
    {
        self.buffer[self.len] = word;
        self.len += 1;
    }

    /// No word is read.
    pub fn clear(&mut self)
        ensures { self.new ≡ emptied self.old }
    {
        self.len = 0;
    }

    /// Whether no word is left.
    pub fn is_full(&self) -> bool
        ensures { IsTrue result ↔ self.now.spare ≡ 0 }
    {
        self.len == self.buffer.len()
    }

    /// The words.
    pub fn words(&self) -> &[u64]
        ensures { result.now ≡ self.now.items }
    {
        &self.buffer[..self.len]
    }
}
