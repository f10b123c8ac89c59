ghost use Rattle.std.specs.Prelude.{◌≡◌, ◌+◌, ◌*◌, ◌<◌, ◌≤◌, ◌^◌, ℤ, ◌+ℤ◌, length, map, unsigned_abs, FitsSigned, IfOk};
ghost use Rattle.std.specs.Int.{w128};
ghost use Rattle.std.specs.List.{range_with_len};
ghost use Rattle.base_words.specs.Sums.{number_at};
ghost use Rattle.boxed_problem.specs.Data.{problem_of};
ghost use Rattle.dual_value.specs.Duals.{priced_at, priced_in};
ghost use Rattle.run_calls.specs.MultiplierTests.{AreLong, AreSized};
ghost use Rattle.sp_model.specs.Plans.{multiplier_of, with_prices};
ghost use Rattle.sp_model.specs.Problems.{problem_in, scenarios};

use boxed_problem::Boxed;
use put_words::with_line;
use run_calls::multiplier;
use sp_model::{Multipliers, Run};
use std::alloc::{AllocError, Global};
use wide_num::{List, plus};

// The multiplier of a column: 0 in the leaf stage.
fn price(run: &Run, multipliers: &Multipliers, scenario: u32, column: u32) -> i128
    requires long { AreLong run.now multipliers.now }
    requires scenario { scenario < scenarios run.now }
    ensures { result ≡ multiplier_of run.now multipliers.now scenario column }
{
    if column < run.nonleaf {
        multiplier(run, multipliers, scenario, column)
    } else {
        0
    }
}

// The cost of a column with its price.
fn priced_cost(
    run: &Run,
    multipliers: &Multipliers,
    scenario: u32,
    column: u32,
    costs: &[i128],
) -> i128
    requires long { AreLong run.now multipliers.now }
    requires sized { AreSized run.now multipliers.now }
    requires scenario { scenario < scenarios run.now }
    requires column { column < length run.now.program.columns }
    requires costs { costs.now ≡ (problem_in run.now scenario).line }
    ensures { result ≡ priced_at run.now multipliers.now scenario column }
{
    plus(
        costs[column as usize],
        price(run, multipliers, scenario, column),
    )
}

// The costs of a scenario with their prices.
fn priced_costs(
    alloc: Global,
    run: &Run,
    multipliers: &Multipliers,
    scenario: u32,
    costs: &[i128],
) -> Result<List<i128>, AllocError>
    requires long { AreLong run.now multipliers.now }
    requires sized { AreSized run.now multipliers.now }
    requires scenario { scenario < scenarios run.now }
    requires costs { costs.now ≡ (problem_in run.now scenario).line }
    ensures { IfOk result (λ line. line ≡ (priced_in run.now multipliers.now scenario).line) }
{
    let mut line = List::new(alloc);
    for column in 0..run.program.columns.len() as u32 {
        line.push(priced_cost(run, multipliers, scenario, column, costs))?;
    }
    Ok(line)
}

/// The problem of a scenario with its multipliers as prices.
pub fn priced(
    alloc: Global,
    run: &Run,
    multipliers: &Multipliers,
    scenario: u32,
) -> Result<Boxed, AllocError>
    requires long { AreLong run.now multipliers.now }
    requires sized { AreSized run.now multipliers.now }
    requires scenario { scenario < scenarios run.now }
    ensures { IfOk result
        (λ problem. problem_of problem ≡ priced_in run.now multipliers.now scenario) }
{
    let problem = run.scenario(alloc, scenario)?;
    let line = priced_costs(alloc, run, multipliers, scenario, problem.line.as_slice())?;
    Ok(with_line(problem, line))
}
