ghost use Rattle.std.specs.Prelude.{◌≡◌, ◌<◌, ◌≤◌, ◌^◌, IfOk, unsigned_abs};
ghost use Rattle.boxed_problem.specs.Optimum.{IsBest};
ghost use Rattle.branch_bound.specs.Answers.{IsAnswer};
ghost use Rattle.sp_model.specs.Problems.{problem_in, scenarios};
ghost use Rattle.wait_and_see.specs.WaitAnswers.{WaitAnswers};
ghost use Rattle.wait_and_see.specs.Solving.{SolvesIn};

use crate::fault::WaitFault;
use branch_bound::{SolveFault, solve};
use sp_model::Run;
use std::alloc::Global;

// The least value of a scenario's problem.
fn least(alloc: Global, run: &Run, s: u32) -> Result<i128, WaitFault>
    requires { s < scenarios run.now }
    ensures { SolvesIn run.now s result }
{
    let Ok(problem) = run.scenario(alloc, s) else {
        return Err(WaitFault::Memory);
    };
    match solve(alloc, &problem, run.options.budget) {
        Ok(best) => Ok(best.value),
        Err(SolveFault::Infeasible) => Err(WaitFault::Infeasible { scenario: s }),
        Err(SolveFault::Spent { opened }) => Err(WaitFault::Spent {
            scenario: s,
            opened,
        }),
        Err(SolveFault::Memory) => Err(WaitFault::Memory),
    }
}

/// The wait-and-see bound: the sum of the least values of all scenarios, each
/// found within the budget of boxes that the run's options name.
pub fn wait_and_see(alloc: Global, run: &Run) -> Result<i128, WaitFault>
    ensures answer { WaitAnswers run.now result }
    ensures small { IfOk result (λ bound. unsigned_abs bound ≤ 2 ^ 120) }
{
    let mut bound = 0i128;
    for s in 0..run.program.scenarios.len() {
        match least(alloc, run, s as u32) {
            Ok(value) => bound += value,
            Err(fault) => return Err(fault),
        }
    }
    Ok(bound)
}
