ghost use Rattle.std.specs.Prelude.{◌≡◌, false, [], ◌∷◌, ◌++◌, ◌+◌, ◌<◌, length, IfOk, nat_eq};
ghost use Rattle.std.specs.List.{list_any};
ghost use Rattle.wide_num.specs.RoomContents.{with_room, room_of};
ghost use Rattle.window_words.specs.Views.{add_once};

use std::alloc::{AllocError, Global};
use std::marker::Model;

/// Numbers whose room is taken when the track is made. Contracts see the
/// numbers, and how many more there is room for.
#[derive(Drop)]
pub struct Track {
    buffer: Vec<u64>,
    len: usize,
}

impl Model for Track {
    ghost use Rattle.std.specs.Prelude.{ℕ, ◌-◌, ◌≤◌, length, take};
    ghost use Rattle.wide_num.specs.RoomContents.{Contents};

    ghost Value = { Contents ℕ };

    ghost view = { λ track. record {
      items = take track.len track.buffer.items;
      spare = length track.buffer.items - track.len;
    } };

    ghost invariant = { λ track. track.len ≤ length track.buffer.items };
}

impl Track {
    /// A track with no numbers, and with room for this many.
    pub fn new(alloc: Global, room: usize) -> Result<Track, AllocError>
        ensures { IfOk result (λ track. track ≡ with_room room) }
    {
        let buffer = vec![in alloc; 0; room]?;
        Ok(Track { buffer, len: 0 })
    }

    /// Appends a number, where there is room for it.
    pub fn push(&mut self, number: u64)
        requires { 0 < self.old.spare }
        ensures items { self.new.items ≡ self.old.items ++ number ∷ [] }
        ensures room { room_of self.new ≡ room_of self.old }
    {
        self.buffer[self.len] = number;
        self.len += 1;
    }

    /// Takes all numbers out. Their room stays.
    pub fn clear(&mut self)
        ensures items { self.new.items ≡ [] }
        ensures room { room_of self.new ≡ room_of self.old }
    {
        self.len = 0;
    }

    /// How many numbers there are.
    pub fn len(&self) -> usize
        ensures { result ≡ length self.now.items }
    {
        self.len
    }

    /// Whether this number is there.
    fn has(&self, number: u64) -> bool
        ensures { result ≡ list_any (λ j. nat_eq j number) self.now.items }
    {
        self.buffer[..self.len].iter().any(|j| *j == number)
    }

    /// Puts one number in the place of all.
    pub fn replace(&mut self, number: u64)
        requires { 0 < room_of self.old }
        ensures items { self.new.items ≡ number ∷ [] }
        ensures room { room_of self.new ≡ room_of self.old }
    {
        self.clear();
        self.push(number);
    }

    /// Appends a number unless it is there.
    pub fn add(&mut self, number: u64)
        requires { list_any (λ j. nat_eq j number) self.old.items ≡ false
            → 0 < self.old.spare }
        ensures items { self.new.items ≡ add_once number self.old.items }
        ensures room { room_of self.new ≡ room_of self.old }
    {
        if !self.has(number) {
            self.push(number);
        }
    }
}
