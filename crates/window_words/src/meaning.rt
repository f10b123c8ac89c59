ghost use Rattle.std.specs.Prelude.{◌≡◌, ℕ, ◌<◌, ◌≤◌, ◌^◌, List};
ghost use Rattle.window_words.specs.Conditions.{AreEntriesWide};

/// What stands in the windows: the words of each window's entries, which are
/// numbered from 1.
pub trait Meaning {
    /// The words of a window's entry.
    ghost entry: { Self → ℕ → ℕ → List ℕ };

    /// How many windows there are.
    ghost count: { Self → ℕ };

    /// How many of them, the first ones, are leaders'.
    ghost lead: { Self → ℕ };

    /// How many words an entry of a window has.
    ghost wide: { Self → ℕ → ℕ };

    /// The number of the last entry that a window may have.
    ghost last: { Self → ℕ };

    /// How many windows there are.
    fn windows(&self) -> usize
        ensures { result ≡ count self.now };

    /// How many of the windows, the first ones, are leaders'.
    fn leaders(&self) -> usize
        ensures { result ≡ lead self.now };

    /// How many words an entry of this window has, its stamp not counted.
    fn width(&self, window: usize) -> usize
        requires { window < count self.now }
        ensures { result ≡ wide self.now window };

    /// The number of the last entry that a window may have.
    fn most(&self) -> u64
        ensures { result ≡ last self.now };

    ghost fits: { (x : Self) → AreEntriesWide (entry x) (wide x) (count x) (last x) };

    ghost small: { (x : Self) → last x < 2 ^ 62 };

    ghost led: { (x : Self) → lead x ≤ count x };
}
