ghost use Rattle.std.specs.Prelude.{◌≡◌, ℕ, ◌≤◌, ◌<◌, true};
ghost use Rattle.window_words.specs.Views.{gained, HasEnded};
ghost use Rattle.window_words.specs.Conditions.{MayOpen, IsNotAhead, IsNextWord, IsAllPut, ReadsOn, HasReadAll};
ghost use Rattle.window_words.specs.Conditions.{AcceptedBelow, OwnStamp, IsEntryWhole};
ghost use Rattle.window_words.specs.declared.views.View.{View};
ghost use Rattle.window_words.specs.declared.views.Call.{Call};
ghost use Rattle.window_words.specs.declared.views.Call.TheVariants.{Open, Put, Close, Begin, Read};
ghost use Rattle.window_words.specs.declared.views.Call.TheVariants.{End, Stop, Stopped};

use crate::meaning::Meaning;

/// One seat's side of the windows. Each call is one step on one word, waits for
/// nobody and takes no memory.
///
/// A stamp `2 * k` says that entry `k` stands whole, a stamp `2 * k - 1` that
/// it is being written, and 0 that the window has no entry yet.
pub trait Board {
    type Of: Meaning;

    /// What the windows mean.
    ghost of: { Self → Self.Of };

    /// What the seat knows.
    ghost view: { Self → View };

    /// What a kind of board says besides of a call with its answer: the board
    /// before, the call, the answer, the board after.
    ghost leaves: { Self → Call → ℕ → Self → Type 0 };

    /// Opens an entry of the one window that the seat owns: stores its odd
    /// stamp.
    fn open_put(&mut self, entry: u64)
        requires free { MayOpen (Self.Of.last (of self.old)) (view self.old) entry }
        requires led { IsNotAhead (Self.Of.lead (of self.old)) (view self.old) entry }
        ensures leaves { leaves self.old (Open entry) 0 self.new }
        ensures same { of self.new ≡ of self.old }
        ensures view { view self.new ≡ gained (Open entry) 0 (view self.old) };

    /// Stores the next word of the open entry.
    fn put_word(&mut self, word: u64)
        requires { IsNextWord Self.Of.entry Self.Of.wide (of self.old) (view self.old) word }
        ensures leaves { leaves self.old (Put word) 0 self.new }
        ensures same { of self.new ≡ of self.old }
        ensures view { view self.new ≡ gained (Put word) 0 (view self.old) };

    /// Closes the open entry, all of whose words are put: stores its even
    /// stamp.
    fn close_put(&mut self)
        requires { IsAllPut (Self.Of.wide (of self.old)) (view self.old) }
        ensures leaves { leaves self.old Close 0 self.new }
        ensures same { of self.new ≡ of self.old }
        ensures view { view self.new ≡ gained Close 0 (view self.old) };

    /// Loads a window's stamp and begins a reading with it. A reading that
    /// wasn't ended is dropped.
    fn begin_read(&mut self, window: usize) -> u64
        requires { window < Self.Of.count (of self.old) }
        ensures leaves { leaves self.old (Begin window) result self.new }
        ensures same { of self.new ≡ of self.old }
        ensures view { view self.new ≡ gained (Begin window) result (view self.old) }
        ensures accepted { AcceptedBelow (view self.old) window result }
        ensures own { OwnStamp (view self.old) window result };

    /// Loads the next word of the window that is being read.
    fn read_word(&mut self, window: usize) -> u64
        requires { ReadsOn (Self.Of.wide (of self.old)) (view self.old) window }
        ensures leaves { leaves self.old (Read window) result self.new }
        ensures same { of self.new ≡ of self.old }
        ensures view { view self.new ≡ gained (Read window) result (view self.old) };

    /// Loads the stamp again and ends the reading. Where it is the even stamp
    /// of an entry and the one that the reading began at, the words that were
    /// read are that entry.
    fn end_read(&mut self, window: usize) -> u64
        requires { HasReadAll (Self.Of.wide (of self.old)) (view self.old) window }
        ensures leaves { leaves self.old (End window) result self.new }
        ensures same { of self.new ≡ of self.old }
        ensures view { HasEnded (Self.Of.lead (of self.old)) result (view self.old)
            (view self.new) }
        ensures whole { IsEntryWhole Self.Of.entry Self.Of.last (of self.old) (view self.old) window
            result };

    /// Stores the number with which the hub's seat stops, once.
    fn stop(&mut self, last: u64)
        requires hub { (view self.old).hub ≡ true }
        requires once { (view self.old).stopped ≡ 0 }
        requires last { 1 ≤ last }
        ensures leaves { leaves self.old (Stop last) 0 self.new }
        ensures same { of self.new ≡ of self.old }
        ensures view { view self.new ≡ gained (Stop last) 0 (view self.old) };

    /// Loads the number with which the hub's seat stopped. The hub's own seat
    /// is answered exactly that, and 0 before.
    fn stopped(&mut self) -> u64
        ensures leaves { leaves self.old Stopped result self.new }
        ensures same { of self.new ≡ of self.old }
        ensures view { view self.new ≡ view self.old }
        ensures hub { (view self.old).hub ≡ true → result ≡ (view self.old).stopped };
}
