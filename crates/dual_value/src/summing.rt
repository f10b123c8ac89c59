ghost use Rattle.std.specs.Prelude.{◌≡◌, ◌+◌, ◌<◌, ℤ, ◌+ℤ◌, Some, FitsSigned, IfErr, IfOk};
ghost use Rattle.std.specs.Int.{w128};
ghost use Rattle.dual_value.specs.Duals.{DualFails, LeastFails, priced_in};
ghost use Rattle.run_calls.specs.MultiplierTests.{AreLong, AreSized};
ghost use Rattle.sp_model.specs.Plans.{dual_of};
ghost use Rattle.sp_model.specs.Problems.{least_of, scenarios};

use crate::pricing::priced;
use branch_bound::{SolveFault, solve};
use sp_model::{Multipliers, Run};
use std::alloc::Global;
use wide_num::plus;

/// Why there is no dual value.
#[derive(Clone, Copy, Debug, Drop, PartialEq, Eq)]
pub enum DualFault {
    /// The first scenario without a feasible point.
    NoPoint { scenario: u32 },
    /// The budget of a scenario's search is used up: `opened` boxes were opened.
    Spent { scenario: u32, opened: u64 },
    /// Memory was refused.
    Memory,
}

// The least value of a scenario with its multipliers as prices.
fn least(
    alloc: Global,
    run: &Run,
    multipliers: &Multipliers,
    budget: u64,
    scenario: u32,
) -> Result<i128, DualFault>
    requires long { AreLong run.now multipliers.now }
    requires sized { AreSized run.now multipliers.now }
    requires scenario { scenario < scenarios run.now }
    ensures ok { IfOk result
        (λ value. least_of (priced_in run.now multipliers.now scenario) ≡ Some value) }
    ensures err { IfErr result (LeastFails run.now multipliers.now budget scenario) }
{
    let Ok(problem) = priced(alloc, run, multipliers, scenario) else {
        return Err(DualFault::Memory);
    };
    match solve(alloc, &problem, budget) {
        Ok(best) => Ok(best.value),
        Err(SolveFault::Infeasible) => Err(DualFault::NoPoint { scenario }),
        Err(SolveFault::Spent { opened }) => Err(DualFault::Spent { scenario, opened }),
        Err(SolveFault::Memory) => Err(DualFault::Memory),
    }
}

/// The dual value of sized multipliers, in the run's unit: for balanced ones no
/// plan costs less. `NoPoint` comes only for the first scenario without a
/// feasible point, `Spent` only where the plain search of that scenario's
/// priced problem opens more boxes than the budget and each scenario before it
/// has a point.
pub fn dual(
    alloc: Global,
    run: &Run,
    multipliers: &Multipliers,
    budget: u64,
) -> Result<i128, DualFault>
    requires long { AreLong run.now multipliers.now }
    requires sized { AreSized run.now multipliers.now }
    ensures ok { IfOk result (λ value. dual_of run.now multipliers.now ≡ Some value) }
    ensures err { IfErr result (DualFails run.now multipliers.now budget) }
{
    let mut sum = 0i128;
    for scenario in 0..run.program.scenarios.len() as u32 {
        let value = match least(alloc, run, multipliers, budget, scenario) {
            Ok(value) => value,
            Err(fault) => return Err(fault),
        };
        sum = plus(sum, value);
    }
    Ok(sum)
}
