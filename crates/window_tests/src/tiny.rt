ghost use Rattle.std.specs.Prelude.{◌≡◌, ◌≤◌, ◌<◌, ◌^◌};
ghost use Rattle.std.proofs.lemmas.List.FromFn.{length-map-range_with_len};
ghost use Rattle.window_tests.specs.Words.{word_at, words_at};

use window_words::Meaning;

/// Windows of one width, whose words differ from entry to entry, from window to
/// window and from place to place.
#[derive(Clone, Copy)]
pub struct Tiny {
    pub windows: usize,
    pub leaders: usize,
    pub width: usize,
    pub most: u64,
    ghost are_fewer: { leaders ≤ windows },
    ghost is_small: { most < 2 ^ 62 },
}

impl Meaning for Tiny {
    ghost entry = { λ t w k. words_at t.width w k };

    ghost count = { λ t. t.windows };

    ghost lead = { λ t. t.leaders };

    ghost wide = { λ t _. t.width };

    ghost last = { λ t. t.most };

    fn windows(&self) -> usize {
        self.windows
    }

    fn leaders(&self) -> usize {
        self.leaders
    }

    fn width(&self, _window: usize) -> usize {
        self.width
    }

    fn most(&self) -> u64 {
        self.most
    }

    ghost fits = { λ t w k _ _ _. length-map-range_with_len (word_at w k) 0 t.width };

    ghost small = { λ t. t.is_small };

    ghost led = { λ t. t.are_fewer };
}

/// The word at a place of an entry of a window.
pub fn word_at(window: usize, entry: u64, place: usize) -> u64
    ensures { result ≡ word_at window entry place }
{
    entry % 1_000_000 * 10_000 + window as u64 % 100 * 100 + place as u64 % 100
}
