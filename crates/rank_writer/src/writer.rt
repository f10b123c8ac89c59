ghost use Rattle.std.specs.Prelude.{◌≡◌, ◌<◌, ℕ, [], None, IsTrue, ◌↔◌, ◌≤◌};
ghost use Rattle.rank_writer.specs.Writers.{IsFresh, StandsFor};
ghost use Rattle.window_words.specs.Views.{OwnsOne};
ghost use Rattle.window_words.specs.declared.views.View.{View};

use put_codec::RunMeaning;
use window_words::Meaning;

/// Whether a rank has its window open, and how many words of its part of the
/// present put it has put.
#[derive(Clone, Copy, Debug, Drop, PartialEq, Eq)]
pub enum Writing {
    Shut,
    Open(usize),
}

/// A rank that writes puts into its window, by its number.
#[derive(Drop)]
pub struct RankWriter {
    pub rank: usize,
    /// How many words its part has.
    pub width: usize,
    /// The last put that stands whole in its window, and 0 before any.
    pub last: u64,
    pub writing: Writing,
}

impl RankWriter {
    /// A rank that has written nothing.
    pub fn new(of: &RunMeaning, rank: usize) -> RankWriter
        requires { rank < of.now.layout.ranks }
        ensures fresh { IsFresh of.now.layout rank result }
        ensures stands { (v : View) (k : ℕ) → OwnsOne v rank [] → v.pending ≡ None →
            StandsFor of.now.layout v result k }
    {
        RankWriter {
            rank,
            width: of.width(rank),
            last: 0,
            writing: Writing::Shut,
        }
    }

    /// Whether a put stands whole in its window.
    pub fn has_closed(&self, put: u64) -> bool
        ensures { IsTrue result ↔ (put ≤ self.now.last) }
    {
        put <= self.last
    }
}
