ghost use Rattle.std.specs.Prelude.{◌≡◌, ◌<◌, Some, IfErr, IfOk};
ghost use Rattle.agreement.specs.Agreeing.{AreAgreed};
ghost use Rattle.boxed_problem.specs.Data.{problem_of};
ghost use Rattle.boxed_problem.specs.Objective.{value_of};
ghost use Rattle.boxed_problem.specs.Optimum.{IsBest};
ghost use Rattle.candidates.specs.Fixing.{SearchFails};
ghost use Rattle.candidates.specs.Under.{AreBestUnder, IsBestUnder, PriceFails, UnderFails};
ghost use Rattle.candidates.specs.Values.{IsWhole, given};
ghost use Rattle.log_words.specs.Candidates.{price_of};
ghost use Rattle.sp_model.specs.Plans.{IsPlan, cost_of};
ghost use Rattle.sp_model.specs.Problems.{problem_in, scenarios};

use crate::candidate::Candidate;
use crate::fault::PriceFault;
use crate::fixing::fixed;
use boxed_problem::{Best, Boxed};
use branch_bound::{SolveFault, solve};
use sp_model::{Plan, Run};
use std::alloc::Global;
use wide_num::{List, plus};

/// The cheapest plan with a candidate's values, and its cost in the run's unit.
#[derive(Debug, Drop)]
pub struct Priced {
    pub value: i128,
    pub plan: Plan,
}

// The best point of a scenario's problem.
fn searched(alloc: Global, problem: &Boxed, budget: u64, scenario: u32) -> Result<Best, PriceFault>
    ensures ok { IfOk result (λ best. IsBest (problem_of problem.now) (Some best)) }
    ensures err { IfErr result (SearchFails (problem_of problem.now) budget scenario) }
{
    match solve(alloc, problem, budget) {
        Ok(best) => Ok(best),
        Err(SolveFault::Infeasible) => Err(PriceFault::NoPoint { scenario }),
        Err(SolveFault::Spent { opened }) => Err(PriceFault::Spent { scenario, opened }),
        Err(SolveFault::Memory) => Err(PriceFault::Memory),
    }
}

// The first least point of a scenario under a candidate.
fn best_under(
    alloc: Global,
    run: &Run,
    candidate: &Candidate,
    budget: u64,
    scenario: u32,
) -> Result<Best, PriceFault>
    requires whole { IsWhole run.now candidate.now }
    requires scenario { scenario < scenarios run.now }
    ensures point { IfOk result
        (λ best. IsBestUnder run.now (given run.now candidate.now) scenario best.point) }
    ensures value { IfOk result
        (λ best. best.value ≡ value_of (problem_in run.now scenario) best.point) }
    ensures err { IfErr result
        (UnderFails run.now (given run.now candidate.now) budget scenario) }
{
    let problem = match fixed(alloc, run, candidate, scenario) {
        Ok(problem) => problem,
        Err(fault) => return Err(fault),
    };
    match searched(alloc, &problem, budget, scenario) {
        Ok(best) => Ok(best),
        Err(fault) => Err(fault),
    }
}

/// What a candidate on which nodes agree costs at least: the plan of each
/// scenario's first least point with the candidate's values, and its cost, which
/// is an upper bound of the optimum. `NoPoint` comes only for the first scenario
/// without such a point, `Spent` only where the plain search of that scenario's
/// problem under the candidate opens more boxes than the budget and each scenario
/// before it has such a point.
pub fn price(
    alloc: Global,
    run: &Run,
    candidate: &Candidate,
    budget: u64,
) -> Result<Priced, PriceFault>
    requires whole { IsWhole run.now candidate.now }
    requires agreed { AreAgreed run.now candidate.now.values }
    ensures under { IfOk result
        (λ priced. AreBestUnder run.now (given run.now candidate.now) priced.plan) }
    ensures plan { IfOk result (λ priced. IsPlan run.now priced.plan) }
    ensures cost { IfOk result (λ priced. priced.value ≡ cost_of run.now priced.plan) }
    ensures price { IfOk result
        (λ priced. price_of run.now (given run.now candidate.now) ≡ Some priced.value) }
    ensures err { IfErr result (PriceFails run.now (given run.now candidate.now) budget) }
{
    let mut points = List::new(alloc);
    let mut sum = 0i128;
    for scenario in 0..run.program.scenarios.len() as u32 {
        let Best { point, value } = match best_under(alloc, run, candidate, budget, scenario) {
            Ok(best) => best,
            Err(fault) => return Err(fault),
        };
        sum = plus(sum, value);
        let Ok(()) = points.push(point) else {
            return Err(PriceFault::Memory);
        };
    }
    Ok(Priced {
        value: sum,
        plan: Plan { points },
    })
}
