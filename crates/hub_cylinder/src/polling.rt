ghost use Rattle.std.specs.Prelude.{◌≡◌, None, true};
ghost use Rattle.hub_cylinder.specs.Hubs.{IsHub, Takes};
ghost use Rattle.run_log.specs.Runs.{MayPoll};
ghost use Rattle.run_log.specs.declared.log.Source.TheVariants.{Spoke};

use crate::hub::Hub;
use log_closing::{bound_from, mark, take_event};
use run_log::Source;

impl Hub {
    /// Records that the present put stands in all windows.
    pub fn wrote(&mut self)
        requires hub { IsHub self.old.run.value self.old }
        requires going { self.old.end ≡ None }
        ensures hub { IsHub self.old.run.value self.new }
        ensures wrote { self.new ≡ record self.old { wrote = true } }
    {
        self.wrote = true;
    }

    /// Takes a spoke's reply to a put, in the polling behind the present put. It
    /// can't be refused.
    pub fn take(&mut self, spoke: usize, put: u64, value: Option<i128>)
        requires hub { IsHub self.old.run.value self.old }
        requires going { self.old.end ≡ None }
        requires wrote { self.old.wrote ≡ true }
        requires may { MayPoll self.old.run.value self.old.events.items (Spoke spoke) put value }
        ensures hub { IsHub self.old.run.value self.new }
        ensures takes { Takes self.old self.new spoke put value }
    {
        let source = Source::Spoke(spoke);
        let pair = self.ledger.take(bound_from(source, value));
        mark(&mut self.marks, self.most, spoke, put as usize);
        self.events.push(take_event(source, put, value, pair));
    }
}
