ghost use Rattle.std.specs.Prelude.{◌≡◌, ◌+◌, ◌≤◌, Some, OnErr, OnOk, IfErr, IfOk};
ghost use Rattle.hedging.specs.Hedges.{FirstFails, IsFirst, NextFails, made_of};
ghost use Rattle.put_words.specs.Hedged.{hedged_in};
ghost use Rattle.put_words.specs.Puts.{bests_below, early_values, put_of};
ghost use Rattle.sp_model.specs.Problems.{scenarios};

use crate::making::{advance, early_values};
use crate::solving::{Solved, first_points, next_points};
use crate::tables::no_multipliers;
use run_calls::Put;
use sp_model::{Multipliers, Plan, Run};
use std::alloc::Global;
use wide_num::List;

/// A put with the points that it was made from, and the wait-and-see bound.
#[derive(Drop)]
pub struct Hedge {
    pub put: Put,
    pub plan: Plan,
    pub bound: i128,
}

/// Why there is no first put.
#[derive(Clone, Copy, Debug, Drop, PartialEq, Eq)]
pub enum FirstFault {
    /// The first scenario without a feasible point.
    Infeasible { scenario: u32 },
    /// The budget of a scenario's search is used up: `opened` boxes were opened.
    Spent { scenario: u32, opened: u64 },
    /// Memory was refused.
    Memory,
}

/// Why there is no next put.
#[derive(Clone, Copy, Debug, Drop, PartialEq, Eq)]
pub enum NextFault {
    /// The budget of a scenario's search is used up: `opened` boxes were opened.
    Spent { scenario: u32, opened: u64 },
    /// Memory was refused.
    Memory,
}

/// The first put: its points are the best ones of all scenarios, and its
/// multipliers are moved from 0 by their values. `Infeasible` comes only for the
/// first scenario without a feasible point, `Spent` only where the plain search
/// of that scenario opens more boxes than the budget and each scenario before
/// it has a point.
pub fn first(alloc: Global, run: &Run) -> Result<Hedge, FirstFault>
    ensures ok { IfOk result (IsFirst run.now) }
    ensures err { IfErr result (FirstFails run.now) }
{
    let Solved { points, bound } = match first_points(alloc, run) {
        Ok(solved) => solved,
        Err(fault) => return Err(fault),
    };
    let Ok(x) = early_values(alloc, run, &points) else {
        return Err(FirstFault::Memory);
    };
    let Ok(multipliers) = no_multipliers(alloc, run) else {
        return Err(FirstFault::Memory);
    };
    let mut hedge = unmoved(alloc, multipliers, bound);
    advance(run, &mut hedge, x, points);
    Ok(hedge)
}

// What the first put is made of: multipliers that nothing has moved yet.
fn unmoved(alloc: Global, multipliers: Multipliers, bound: i128) -> Hedge
    ensures number { result.put.number ≡ 0 }
    ensures multipliers { result.put.multipliers ≡ multipliers }
    ensures bound { result.bound ≡ bound }
{
    let x = List::new(alloc);
    let points = List::new(alloc);
    Hedge {
        put: Put {
            number: 0,
            multipliers,
            x,
        },
        plan: Plan { points },
        bound,
    }
}

// Points with their values in the nonleaf columns.
#[derive(Drop)]
struct Found {
    points: List<List<i64>>,
    x: List<i64>,
}

// The points that the put after the one of a hedge is made from.
fn following(alloc: Global, run: &Run, hedge: &Hedge) -> Result<Found, NextFault>
    requires put { put_of run.now hedge.now.put.number ≡ Some (made_of hedge.now) }
    requires more { hedge.now.put.number ≤ run.now.options.iterations }
    ensures points { IfOk result
        (λ found. bests_below (scenarios run.now)
        (hedged_in run.now hedge.now.put.multipliers hedge.now.put.x)
        ≡ Some found.points) }
    ensures values { IfOk result (λ found. found.x ≡ early_values run.now found.points) }
    ensures err { IfErr result (NextFails run.now hedge.now.put) }
{
    let points = match next_points(alloc, run, &hedge.put) {
        Ok(points) => points,
        Err(fault) => return Err(fault),
    };
    let Ok(x) = early_values(alloc, run, &points) else {
        return Err(NextFault::Memory);
    };
    Ok(Found { points, x })
}

/// Makes the next put: its points are the best ones of the hedged problems of
/// all scenarios, and its multipliers are moved by their values. The bound
/// stays. `Spent` comes only where the plain search of that hedged problem opens
/// more boxes than the budget. A hedge that is refused stays as it was.
pub fn next(alloc: Global, run: &Run, hedge: &mut Hedge) -> Result<(), NextFault>
    requires put { put_of run.now hedge.old.put.number ≡ Some (made_of hedge.old) }
    requires more { hedge.old.put.number ≤ run.now.options.iterations }
    ensures put { OnOk result (put_of run.now hedge.new.put.number ≡ Some (made_of hedge.new)) }
    ensures number { OnOk result (hedge.new.put.number ≡ hedge.old.put.number + 1) }
    ensures bound { hedge.new.bound ≡ hedge.old.bound }
    ensures err { IfErr result (NextFails run.now hedge.old.put) }
    ensures unchanged { OnErr result (hedge.new ≡ hedge.old) }
{
    match following(alloc, run, hedge) {
        Ok(Found { points, x }) => {
            advance(run, hedge, x, points);
            Ok(())
        }
        Err(fault) => Err(fault),
    }
}
