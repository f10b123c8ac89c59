ghost use Rattle.std.specs.Prelude.{◌≡◌, ◌↔◌, ◌+ℤ◌, int_le, nat_lt, IsTrue, IfOk, MatchOption, None, OnErr, true};
ghost use Rattle.std.specs.Int.{saturate_signed, w128};
ghost use Rattle.hub_cylinder.specs.Hubs.{Decides, EndsByTest, IsHub};
ghost use Rattle.run_log.specs.Events.{present};
ghost use Rattle.run_log.specs.Runs.{GoesOn, IsClose};

use crate::hub::Hub;
use agreement::agrees;
use bound_ledger::Pair;
use hedging::{NextFault, next};
use run_log::{End, Event};
use sp_model::Run;
use std::alloc::{AllocError, Global};

/// Whether a run goes on.
#[derive(Clone, Copy, Debug, Drop, PartialEq, Eq)]
pub enum Decision {
    /// The next put is made.
    Go,
    /// The run has ended.
    Stop,
}

// Whether an upper bound is at most a gap above a lower one. A sum that is past
// the greatest number is above every bound.
fn is_within(upper: i128, lower: i128, gap: i128) -> bool
    ensures { result ≡ int_le upper (saturate_signed w128 (lower +ℤ gap)) }
{
    upper <= lower.saturating_add(gap)
}

// Whether the bounds of a pair are as close as the run asks.
fn is_close(run: &Run, pair: Pair) -> bool
    ensures { IsTrue result ↔ IsClose run.now pair }
{
    match pair.upper {
        Some(upper) => is_within(upper, pair.lower, run.options.gap),
        None => false,
    }
}

// Whether a put is the last one that the options allow.
fn is_last(run: &Run, put: u64) -> bool
    ensures { result ≡ nat_lt run.now.options.iterations put }
{
    run.options.iterations < put
}

impl Hub {
    // The first test that ends the run behind the present put, if one does.
    fn test(&self, run: &Run) -> Option<End>
        requires run { self.now.run.value ≡ run.now }
        requires hub { IsHub run.now self.now }
        ensures { MatchOption result
            (GoesOn run.now (present self.now.events.items) self.now.ledger.pair)
            (EndsByTest run.now (present self.now.events.items) self.now.ledger.pair) }
    {
        if agrees(run, &self.hedge.put.x) {
            return Some(End::Agreed);
        }
        if is_close(run, self.ledger.pair) {
            return Some(End::Gap);
        }
        if is_last(run, self.hedge.put.number) {
            return Some(End::Iterations);
        }
        None
    }

    // Makes the next put, or ends the run where a search of it is spent.
    fn go_on(&mut self, alloc: Global, run: &Run) -> Result<Decision, AllocError>
        requires run { self.old.run.value ≡ run.now }
        requires hub { IsHub run.now self.old }
        requires going { self.old.end ≡ None }
        requires goes_on { GoesOn run.now (present self.old.events.items) self.old.ledger.pair }
        ensures hub { IsHub run.now self.new }
        ensures decides { IfOk result (Decides run.now self.old self.new) }
        ensures err { OnErr result (self.new ≡ self.old) }
    {
        match next(alloc, run, &mut self.hedge) {
            Ok(()) => {
                self.events.push(Event::Put {
                    put: self.hedge.put.number,
                });
                self.wrote = false;
                Ok(Decision::Go)
            }
            Err(NextFault::Spent { scenario, .. }) => {
                self.end = Some(End::Spent { scenario });
                Ok(Decision::Stop)
            }
            Err(NextFault::Memory) => Err(AllocError),
        }
    }

    /// Ends the run by the first test that holds behind the present put, or
    /// makes the next put. Where a search of that is spent the run ends too.
    /// Where memory is refused nothing is changed.
    pub fn decide(&mut self, alloc: Global, run: &Run) -> Result<Decision, AllocError>
        requires run { self.old.run.value ≡ run.now }
        requires hub { IsHub run.now self.old }
        requires going { self.old.end ≡ None }
        requires wrote { self.old.wrote ≡ true }
        ensures hub { IsHub run.now self.new }
        ensures decides { IfOk result (Decides run.now self.old self.new) }
        ensures err { OnErr result (self.new ≡ self.old) }
    {
        match self.test(run) {
            Some(end) => {
                self.end = Some(end);
                Ok(Decision::Stop)
            }
            None => self.go_on(alloc, run),
        }
    }
}
