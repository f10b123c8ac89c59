ghost use Rattle.std.specs.Prelude.{◌≡◌, ℕ, ◌+◌, ◌<◌, ◌^◌, map};
ghost use Rattle.wide_num.specs.RoomContents.{room_of};
ghost use Rattle.window_words.specs.Views.{accept, ended, entry_of, gained, is_whole, longer, one_more, with_owned, with_reading};
ghost use Rattle.window_words.specs.declared.views.Call.TheVariants.{Open, Close, Begin, Stop};
ghost use Rattle.plain_board.specs.Tracks.{items_of};
ghost use Rattle.plain_board.specs.Seats.{shown, own_window, put_count, HasRoomFor, HasRoomToEnd, KeepsRoom};

use crate::track::Track;
use window_words::Pending;

/// A reading that was begun: its window, and the stamp it began at.
#[derive(Drop)]
pub struct Begun {
    pub window: usize,
    pub first: u64,
}

/// What one seat knows, with room for all that it may come to know.
#[derive(Drop)]
pub struct PlainSeat {
    pub hub: bool,
    pub dealt: usize,
    pub window: Option<usize>,
    pub closed: Track,
    pub pending: Option<Pending>,
    pub reading: Option<Begun>,
    /// The words read so far.
    pub words: Track,
    /// The accepted entries of each window.
    pub accepted: Vec<Track>,
    pub stopped: u64,
}

impl PlainSeat {
    /// The window that the seat owns, or 0.
    pub fn own_window(&self) -> usize
        ensures { result ≡ own_window (shown self.now) }
    {
        match self.window {
            Some(window) => window,
            None => 0,
        }
    }

    /// How many words of the open entry are put, or 0.
    pub fn put_count(&self) -> usize
        ensures { result ≡ put_count self.now.pending }
    {
        match &self.pending {
            Some(pending) => pending.put,
            None => 0,
        }
    }

    /// The open entry, or 0.
    pub fn open_entry(&self) -> u64
        ensures { result ≡ entry_of self.now.pending }
    {
        match &self.pending {
            Some(pending) => pending.entry,
            None => 0,
        }
    }

    /// Entry `entry` is open.
    pub fn open(&mut self, entry: u64)
        ensures view { shown self.new ≡ gained (Open entry) 0 (shown self.old) }
        ensures room { KeepsRoom self.old self.new }
    {
        self.pending = Some(Pending { entry, put: 0 });
    }

    /// One more word is put.
    pub fn put(&mut self)
        requires { put_count self.old.pending + 1 < 2 ^ 64 }
        ensures view { shown self.new
            ≡ with_owned (shown self.old) (shown self.old).owned (one_more self.old.pending) }
        ensures room { KeepsRoom self.old self.new }
    {
        if let Some(pending) = &mut self.pending {
            pending.put += 1;
        }
    }

    /// The open entry is closed.
    #[tactic(auto, using(crate::proofs::Shown::owned_push))]
    pub fn close(&mut self)
        requires { 0 < self.old.closed.spare }
        ensures view { shown self.new ≡ gained Close 0 (shown self.old) }
        ensures room { KeepsRoom self.old self.new }
    {
        let entry = self.open_entry();
        self.closed.push(entry);
        self.pending = None;
    }

    /// A reading begins at this stamp.
    pub fn begin(&mut self, window: usize, first: u64)
        ensures view { shown self.new ≡ gained (Begin window) first (shown self.old) }
        ensures room { KeepsRoom self.old self.new }
    {
        self.words.clear();
        self.reading = Some(Begun { window, first });
    }

    /// One more word is read.
    #[tactic(auto, using(crate::proofs::Shown::reading_push))]
    pub fn read(&mut self, word: u64)
        requires { 0 < self.old.words.spare }
        ensures view { shown self.new
            ≡ with_reading (shown self.old) (longer word (shown self.old).reading) }
        ensures room { KeepsRoom self.old self.new }
    {
        self.words.push(word);
    }

    /// Entry `entry` of a window is accepted: a leader's is kept as the latest.
    pub fn accept(&mut self, leaders: usize, window: usize, entry: u64)
        requires { HasRoomFor leaders window entry self.old.accepted.items }
        ensures accepted { map items_of self.new.accepted.items
            ≡ accept leaders window entry (map items_of self.old.accepted.items) }
        ensures rooms { map room_of self.new.accepted.items
            ≡ map room_of self.old.accepted.items }
        ensures others { self.new ≡ record self.old { accepted = self.new.accepted } }
    {
        if window < leaders {
            self.accepted[window].replace(entry);
        } else {
            self.accepted[window].add(entry);
        }
    }

    /// The reading ends at this stamp.
    pub fn end(&mut self, leaders: usize, last: u64)
        requires { HasRoomToEnd leaders last self.old }
        ensures view { shown self.new
            ≡ ended leaders last (shown self.old) (shown self.old).reading }
        ensures room { KeepsRoom self.old self.new }
    {
        if let Some(begun) = &self.reading {
            let window = begun.window;
            if is_entry(begun.first, last) {
                self.accept(leaders, window, last / 2);
            }
        }
        self.reading = None;
    }

    /// The hub stopped with this number.
    pub fn stop(&mut self, last: u64)
        ensures view { shown self.new ≡ gained (Stop last) 0 (shown self.old) }
        ensures room { KeepsRoom self.old self.new }
    {
        self.stopped = last;
    }
}

/// Whether both stamps of a reading are the even stamp of one entry.
fn is_entry(first: u64, last: u64) -> bool
    ensures { result ≡ is_whole first last }
{
    first == last && last % 2 == 0 && 0 < last
}
