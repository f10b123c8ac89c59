ghost use Rattle.std.specs.Prelude.{◌≡◌, ◌+◌, ◌*◌, ◌≤◌, ◌^◌, IfErr, IfOk, []};
ghost use Rattle.bound_ledger.specs.Pairs.{pair_after};
ghost use Rattle.hedging.specs.Hedges.{FirstFails};
ghost use Rattle.hub_cylinder.specs.Hubs.{AreRooms, IsFresh, IsHub, closing_most, polled_most};
ghost use Rattle.log_closing.specs.Marks.{puts_of, spokes_of};

use crate::hub::Hub;
use bound_ledger::Ledger;
use hedging::{FirstFault, Hedge, first};
use log_words::SpokeLog;
use run_log::Event;
use sp_model::{Multipliers, Run};
use std::alloc::{AllocError, Global};
use std::snapshot::Snapshot;
use wide_num::{List, Room};

/// The room for a run's log.
#[derive(Drop)]
pub struct Rooms {
    pub events: Room<Event>,
    pub marks: List<bool>,
    pub logs: Room<SpokeLog>,
    pub nothing: Multipliers,
}

// The product of two small numbers.
fn product(a: usize, b: usize) -> usize
    requires first { a ≤ 2 ^ 20 }
    requires second { b ≤ 2 ^ 20 }
    ensures value { result ≡ a * b }
    ensures small { result ≤ 2 ^ 40 }
{
    a * b
}

// How many events a run has at most: for each put with a take of each spoke in
// its polling, and behind the last polling a take for each put and spoke, and the
// hub's own.
fn most_events(run: &Run) -> usize
    ensures { result ≡ polled_most run.now + closing_most run.now }
{
    let spokes = run.options.lagrangian;
    let puts = run.options.iterations as usize + 1;
    product(puts, spokes + 1) + (product(puts, spokes) + 1)
}

// How many marks there are.
fn most_marks(run: &Run) -> usize
    ensures { result ≡ spokes_of run.now * (puts_of run.now + 1) }
{
    product(
        run.options.lagrangian,
        run.options.iterations as usize + 1 + 1,
    )
}

// The room for the log of a run.
fn rooms_for(alloc: Global, run: &Run) -> Result<Rooms, AllocError>
    ensures { IfOk result (AreRooms run.now) }
{
    let cells = run.program.scenarios.len() * run.nonleaf as usize;
    let events = Room::new(alloc, most_events(run))?;
    let marks = List::repeated(alloc, false, most_marks(run))?;
    let logs = Room::new(alloc, run.options.lagrangian)?;
    let values = List::repeated(alloc, 0i128, cells)?;
    Ok(Rooms {
        events,
        marks,
        logs,
        nothing: Multipliers { values },
    })
}

// A ledger that begins with a hedge's bound.
fn ledger_of(hedge: &Hedge) -> Ledger
    ensures { result.pair ≡ pair_after hedge.now.bound [] }
{
    Ledger::new(hedge.bound)
}

impl Hub {
    /// The hub of a run whose spokes are Lagrangian, behind its first put. It
    /// takes here all the memory that its takes and its log need.
    pub fn first(alloc: Global, run: &Run) -> Result<Hub, FirstFault>
        requires { run.now.options.xhat ≡ 0 }
        ensures hub { IfOk result (IsHub run.now) }
        ensures fresh { IfOk result IsFresh }
        ensures err { IfErr result (FirstFails run.now) }
    {
        let hedge = match first(alloc, run) {
            Ok(hedge) => hedge,
            Err(fault) => return Err(fault),
        };
        let Ok(rooms) = rooms_for(alloc, run) else {
            return Err(FirstFault::Memory);
        };
        let Rooms {
            mut events,
            marks,
            logs,
            nothing,
        } = rooms;
        events.push(Event::Put { put: 1 });
        Ok(Hub {
            run: Snapshot::of(run),
            most: run.options.iterations as usize + 1,
            ledger: ledger_of(&hedge),
            hedge,
            events,
            marks,
            wrote: false,
            end: None,
            logs,
            nothing,
        })
    }
}
