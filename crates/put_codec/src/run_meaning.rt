ghost use Rattle.std.specs.Prelude.{◌≡◌, ◌+◌};
ghost use Rattle.put_codec.specs.Entries.{MeansRun, entry_of};
ghost use Rattle.put_codec.specs.Layouts.{width_of, windows_of};
ghost use Rattle.sp_model.specs.Problems.{scenarios};
ghost use Rattle.sp_model.specs.ScenarioPoints.{HavePoints};

use crate::layout::{Layout, cells, layout_of};
use sp_model::Run;
use std::snapshot::Snapshot;
use window_words::Meaning;

/// What a run's windows mean: entry `k` of a rank's window is the words of its
/// part of put `k`, and entry `k` of a spoke's window those of its reply to it.
#[derive(Drop)]
pub struct RunMeaning {
    pub layout: Layout,
    /// The number of the last put that the run may make.
    pub most: u64,
    pub run: Snapshot<Run>,
    pub ghost facts: { MeansRun run.value layout most },
}

/// What the windows of a run mean, where each scenario has a feasible point.
pub fn meaning(run: &Run) -> RunMeaning
    requires { HavePoints run.now (scenarios run.now) }
    ensures { result.run.value ≡ run.now }
{
    RunMeaning {
        layout: layout_of(run),
        most: run.options.iterations + 1,
        run: Snapshot::of(run),
    }
}

impl Meaning for RunMeaning {
    ghost entry = { λ m. entry_of m.run.value };

    ghost count = { λ m. windows_of m.layout };

    ghost lead = { λ m. m.layout.ranks };

    ghost wide = { λ m. width_of m.layout };

    ghost last = { λ m. m.most };

    fn windows(&self) -> usize {
        self.layout.ranks + self.layout.spokes
    }

    fn leaders(&self) -> usize {
        self.layout.ranks
    }

    fn width(&self, window: usize) -> usize {
        if window < self.layout.ranks {
            3 * cells(&self.layout, window)
        } else {
            3
        }
    }

    fn most(&self) -> u64 {
        self.most
    }

    ghost fits = { λ m. m.facts.wide };

    ghost small = { λ m. m.facts.few };

    ghost led = { λ m. m.facts.led };
}
