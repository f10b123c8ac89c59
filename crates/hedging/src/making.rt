ghost use Rattle.std.specs.Prelude.{◌≡◌, ◌+◌, ◌≤◌, [], length, take, IfOk};
ghost use Rattle.std.specs.List.{All};
ghost use Rattle.hedging.specs.Hedges.{made_of};
ghost use Rattle.put_words.specs.NodeSums.{AreInside};
ghost use Rattle.put_words.specs.Puts.{early_values, made_from};
ghost use Rattle.run_calls.specs.MultiplierTests.{AreLong, AreSized};

use crate::hedge::Hedge;
use crate::tables::move_on;
use sp_model::{Plan, Run};
use std::alloc::{AllocError, Global};
use wide_num::List;

// The first values of a point.
fn front(point: &List<i64>, most: usize) -> &[i64]
    requires { most ≤ length point.now }
    ensures { result.now ≡ take most point.now }
{
    &point.as_slice()[..most]
}

// Room for the values of all scenarios in the nonleaf columns, and no more.
fn room(alloc: Global, run: &Run) -> Result<Vec<i64>, AllocError>
    ensures { IfOk result (λ room. room.items ≡ []) }
{
    let cells = run.program.scenarios.len() * run.nonleaf as usize;
    let room = Vec::with_capacity(alloc, cells)?;
    Ok(room)
}

/// The values of points in the nonleaf columns, in as much memory as they need.
pub fn early_values(
    alloc: Global,
    run: &Run,
    points: &List<List<i64>>,
) -> Result<List<i64>, AllocError>
    requires { All (λ p. run.now.nonleaf ≤ length p) points.now }
    ensures { IfOk result (λ x. x ≡ early_values run.now points.now) }
{
    let mut values = room(alloc, run)?;
    for point in points.as_slice() {
        values.extend_from_slice(front(point, run.nonleaf as usize))?;
    }
    Ok(List::from_vec(values))
}

/// Turns a hedge into the next one by points and their values. Its multipliers
/// are moved where they stand, so it takes no memory and can't be refused.
pub fn advance(run: &Run, hedge: &mut Hedge, x: List<i64>, points: List<List<i64>>)
    requires more { hedge.old.put.number ≤ run.now.options.iterations }
    requires long { AreLong run.now hedge.old.put.multipliers }
    requires sized { AreSized run.now hedge.old.put.multipliers }
    requires values { x ≡ early_values run.now points }
    requires inside { AreInside run.now x }
    ensures made { made_of hedge.new
        ≡ made_from run.now (hedge.old.put.number + 1) hedge.old.put.multipliers points }
    ensures bound { hedge.new.bound ≡ hedge.old.bound }
{
    move_on(run, &x, &mut hedge.put.multipliers);
    hedge.put.number += 1;
    hedge.put.x = x;
    hedge.plan = Plan { points };
}
