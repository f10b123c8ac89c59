ghost use Rattle.std.specs.Prelude.{◌≡◌, ◌<◌, List, Some, IfErr, IfOk};
ghost use Rattle.boxed_problem.specs.Optimum.{best_of};
ghost use Rattle.hedging.specs.Hedges.{FirstFails, NextFails};
ghost use Rattle.hedging.specs.Solves.{BestFails};
ghost use Rattle.hedging.specs.Tables.{ArePulls};
ghost use Rattle.put_words.specs.Hedged.{hedged_in};
ghost use Rattle.put_words.specs.NodeSums.{AreInside};
ghost use Rattle.put_words.specs.Puts.{bests_below};
ghost use Rattle.sp_model.specs.ScenarioPoints.{HavePoints};
ghost use Rattle.run_calls.specs.MultiplierTests.{AreLong, AreSized};
ghost use Rattle.sp_model.specs.Problems.{problem_in, scenarios, wait_and_see_of};

use crate::hedge::{FirstFault, NextFault};
use crate::hedged::hedged;
use crate::tables::pulls;
use boxed_problem::Best;
use branch_bound::{SolveFault, solve};
use run_calls::Put;
use sp_model::Run;
use std::alloc::Global;
use wide_num::{List, plus};

/// The best points of all scenarios, and the sum of their values.
#[derive(Drop)]
pub struct Solved {
    pub points: List<List<i64>>,
    pub bound: i128,
}

// The best point of a scenario.
fn first_best(alloc: Global, run: &Run, scenario: u32) -> Result<Best, FirstFault>
    requires { scenario < scenarios run.now }
    ensures ok { IfOk result (λ best. best_of (problem_in run.now scenario) ≡ Some best) }
    ensures err { IfErr result (BestFails run.now scenario) }
{
    let Ok(problem) = run.scenario(alloc, scenario) else {
        return Err(FirstFault::Memory);
    };
    match solve(alloc, &problem, run.options.budget) {
        Ok(best) => Ok(best),
        Err(SolveFault::Infeasible) => Err(FirstFault::Infeasible { scenario }),
        Err(SolveFault::Spent { opened }) => Err(FirstFault::Spent { scenario, opened }),
        Err(SolveFault::Memory) => Err(FirstFault::Memory),
    }
}

/// The best points of all scenarios, each solved by itself.
pub fn first_points(alloc: Global, run: &Run) -> Result<Solved, FirstFault>
    ensures points { IfOk result
        (λ solved. bests_below (scenarios run.now) (problem_in run.now) ≡ Some solved.points) }
    ensures bound { IfOk result (λ solved. wait_and_see_of run.now ≡ Some solved.bound) }
    ensures err { IfErr result (FirstFails run.now) }
{
    let mut points = List::new(alloc);
    let mut bound = 0i128;
    for scenario in 0..run.program.scenarios.len() as u32 {
        let Best { point, value } = match first_best(alloc, run, scenario) {
            Ok(best) => best,
            Err(fault) => return Err(fault),
        };
        bound = plus(bound, value);
        let Ok(()) = points.push(point) else {
            return Err(FirstFault::Memory);
        };
    }
    Ok(Solved { points, bound })
}

// The best point of the hedged problem of a scenario, which has one.
fn hedged_best(
    alloc: Global,
    run: &Run,
    put: &Put,
    pulls: &List<i128>,
    scenario: u32,
) -> Result<Best, NextFault>
    requires long { AreLong run.now put.now.multipliers }
    requires sized { AreSized run.now put.now.multipliers }
    requires inside { AreInside run.now put.now.x }
    requires pulls { ArePulls run.now put.now.x pulls.now }
    requires scenario { scenario < scenarios run.now }
    requires point { HavePoints run.now (scenarios run.now) }
    ensures ok { IfOk result
        (λ best. best_of (hedged_in run.now put.now.multipliers put.now.x scenario) ≡ Some best) }
    ensures err { IfErr result (NextFails run.now put.now) }
{
    let Ok(problem) = hedged(alloc, run, put, pulls, scenario) else {
        return Err(NextFault::Memory);
    };
    match solve(alloc, &problem, run.options.budget) {
        Ok(best) => Ok(best),
        Err(SolveFault::Infeasible) => unreachable!(),
        Err(SolveFault::Spent { opened }) => Err(NextFault::Spent { scenario, opened }),
        Err(SolveFault::Memory) => Err(NextFault::Memory),
    }
}

/// The best points of the hedged problems of all scenarios.
pub fn next_points(alloc: Global, run: &Run, put: &Put) -> Result<List<List<i64>>, NextFault>
    requires long { AreLong run.now put.now.multipliers }
    requires sized { AreSized run.now put.now.multipliers }
    requires inside { AreInside run.now put.now.x }
    requires points { HavePoints run.now (scenarios run.now) }
    ensures ok { IfOk result
        (λ points. bests_below (scenarios run.now) (hedged_in run.now put.now.multipliers put.now.x)
        ≡ Some points) }
    ensures err { IfErr result (NextFails run.now put.now) }
{
    let Ok(pulls) = pulls(alloc, run, &put.x) else {
        return Err(NextFault::Memory);
    };
    let mut points = List::new(alloc);
    for scenario in 0..run.program.scenarios.len() as u32 {
        let Best { point, .. } = match hedged_best(alloc, run, put, &pulls, scenario) {
            Ok(best) => best,
            Err(fault) => return Err(fault),
        };
        let Ok(()) = points.push(point) else {
            return Err(NextFault::Memory);
        };
    }
    Ok(points)
}
