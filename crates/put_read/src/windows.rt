ghost use Rattle.std.specs.Prelude.{◌≡◌};
ghost use Rattle.put_codec.specs.Layouts.{layout_in, width_of};
ghost use Rattle.put_read.specs.Reads.{AreRanks, no_entry};

use put_codec::{Layout, cells, layout_of};
use sp_model::Run;
use window_words::Meaning;

/// The ranks' windows of a layout: how many words each has. No entry is said,
/// so no put has to be there.
#[derive(Drop)]
pub struct RankWindows {
    pub layout: Layout,
    pub ghost facts: { AreRanks layout },
}

/// The ranks' windows of a run.
pub fn rank_windows(run: &Run) -> RankWindows
    ensures { result.layout ≡ layout_in run.now }
{
    RankWindows {
        layout: layout_of(run),
    }
}

impl Meaning for RankWindows {
    ghost entry = { λ m. no_entry };

    ghost count = { λ m. m.layout.ranks };

    ghost lead = { λ m. m.layout.ranks };

    ghost wide = { λ m. width_of m.layout };

    ghost last = { λ m. 0 };

    fn windows(&self) -> usize {
        self.layout.ranks
    }

    fn leaders(&self) -> usize {
        self.layout.ranks
    }

    fn width(&self, window: usize) -> usize {
        3 * cells(&self.layout, window)
    }

    fn most(&self) -> u64 {
        0
    }

    ghost fits = { λ m. m.facts.wide };

    ghost small = { λ m. m.facts.few };

    ghost led = { λ m. m.facts.led };
}
