ghost use Rattle.std.specs.Prelude.{◌≡◌};
ghost use Rattle.io_edge.specs.Calls.{fails_next, no_calls, with_done, with_failed};
ghost use Rattle.io_edge.specs.Faults.{Rises};

/// The calls of a shelf or a sink in memory: how many there were, the numbers
/// of those that are to fail, counted from 1, and how many failed. Both counts
/// stop at the greatest `u64`.
#[derive(Drop)]
pub struct Calls {
    made: u64,
    failing: Vec<u64>,
    failed: u64,
}

impl Calls {
    pub fn new(failing: Vec<u64>) -> Calls
        ensures { result ≡ no_calls failing }
    {
        Calls {
            made: 0,
            failing,
            failed: 0,
        }
    }

    /// How many calls failed.
    pub fn failed(&self) -> u64
        ensures { result ≡ self.now.failed }
    {
        self.failed
    }

    /// Whether the next call is to fail.
    pub fn is_next_failing(&self) -> bool
        ensures { result ≡ fails_next self.now }
    {
        self.failing.contains(&self.made.saturating_add(1))
    }

    /// Counts a call that was done.
    pub fn add_done(&mut self)
        ensures { self.new ≡ with_done self.old }
    {
        self.made = self.made.saturating_add(1);
    }

    /// Counts a call that failed.
    pub fn add_failed(&mut self)
        ensures one { self.new ≡ with_failed self.old }
        ensures rises { Rises self.old.failed self.new.failed }
    {
        self.made = self.made.saturating_add(1);
        self.failed = self.failed.saturating_add(1);
    }
}
