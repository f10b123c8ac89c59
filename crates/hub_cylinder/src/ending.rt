ghost use Rattle.std.specs.Prelude.{◌≡◌, ◌≢◌, None, Some, option_map, ℤ, ◌<◌};
ghost use Rattle.std.specs.List.{All};
ghost use Rattle.log_closing.specs.Closings.{Advances, AreSpokeEnds, logs_of};
ghost use Rattle.hub_cylinder.specs.Hubs.{Closes, IsHub, with_plan};
ghost use Rattle.put_words.specs.Puts.{put_of};
ghost use Rattle.hedging.specs.Hedges.{made_of};
ghost use Rattle.run_log.specs.Events.{present};
ghost use Rattle.run_log.specs.Runs.{EndsBy, IsAnswered, IsRun, own_claims};
ghost use Rattle.sp_model.specs.Plans.{IsPlan, cost_of};
ghost use Rattle.run_log.specs.declared.log.End.TheVariants.{Agreed};

use crate::hub::Hub;
use hedging::Hedge;
use log_closing::{Closing, Gathered, backing, gather};
use log_words::{SpokeEnd, SpokeLog};
use plan_calls::cost;
use run_log::{End, Log, Source, Upper};
use sp_model::{Multipliers, Plan, Run};
use wide_num::{List, Room};

// What the hub's points cost, which are a plan.
fn own_value(run: &Run, hedge: &Hedge) -> Option<i128>
    requires { IsPlan run.now hedge.now.plan }
    ensures { result ≡ Some (cost_of run.now hedge.now.plan) }
{
    Some(cost(run, &hedge.plan))
}

// The hub's own take, where its points are a plan.
fn take_own(closing: &mut Closing, run: &Run, hedge: &Hedge, end: End)
    requires room { 0 < closing.old.events.spare }
    requires put { put_of run.now hedge.now.put.number ≡ Some (made_of hedge.now) }
    requires plan { end ≡ Agreed → IsPlan run.now hedge.now.plan }
    ensures { (first : ℤ) → Advances first closing.old closing.new
        (own_claims run.now hedge.now.put.number end) }
{
    match end {
        End::Agreed => {
            closing.take(Source::Hub, hedge.put.number, own_value(run, hedge));
        }
        End::Gap => {}
        End::Iterations => {}
        End::Spent { .. } => {}
    }
}

// An upper bound, if there is one, with the plan whose cost it is.
fn upper_with(upper: Option<i128>, plan: Plan) -> Option<Upper>
    ensures { result ≡ option_map (with_plan plan) upper }
{
    match upper {
        Some(value) => Some(Upper { value, plan }),
        None => None,
    }
}

// The log of a hub whose last takes are made.
fn closed(
    hedge: Hedge,
    closing: Closing,
    end: End,
    logs: Room<SpokeLog>,
    multipliers: Multipliers,
) -> Log
    ensures { result
        ≡ record {
          first = hedge.bound;
          events = closing.events.items;
          end = end;
          spokes = logs.items;
          lower = closing.ledger.pair.lower;
          multipliers = multipliers;
          upper = option_map (with_plan hedge.plan) closing.ledger.pair.upper;
        } }
{
    let pair = closing.ledger.pair;
    Log {
        first: hedge.bound,
        events: closing.events.into_list(),
        end,
        spokes: logs.into_list(),
        lower: pair.lower,
        multipliers,
        upper: upper_with(pair.upper, hedge.plan),
    }
}

impl Hub {
    /// Closes the log of a run that has ended: takes the cost of the hub's own points,
    /// where they are a plan, and each reply that wasn't taken yet, spokes in order
    /// and puts in order. The spokes hand over, in the order of their numbers, what
    /// they answered up to the last put. It takes no memory.
    pub fn end(self, run: &Run, ends: List<SpokeEnd>) -> Log
        requires run { self.run.value ≡ run.now }
        requires hub { IsHub run.now self }
        requires ended { self.end ≢ None }
        requires ends { AreSpokeEnds run.now (present self.events.items) ends }
        requires answered { All (IsAnswered (logs_of ends)) self.events.items }
        ensures run { IsRun run.now result }
        ensures closes { Closes run.now self ends result }
    {
        let Hub {
            most,
            hedge,
            ledger,
            events,
            marks,
            end,
            logs,
            nothing,
            ..
        } = self;
        let end = end.unwrap();
        let mut closing = Closing { ledger, events };
        take_own(&mut closing, run, &hedge, end);
        closing.take_left(ends.as_slice(), marks.as_slice(), most);
        let Gathered { logs, found } = gather(ends, logs, closing.ledger.pair.lower);
        let multipliers = backing(nothing, hedge.bound, closing.ledger.pair.lower, found);
        closed(hedge, closing, end, logs, multipliers)
    }
}
