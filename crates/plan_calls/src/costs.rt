ghost use Rattle.std.specs.Prelude.{◌≡◌, ◌+ℤ◌, ◌<◌, length};
ghost use Rattle.base_words.specs.Sums.{number_at};
ghost use Rattle.boxed_problem.specs.Objective.{value_of, value_part};
ghost use Rattle.boxed_problem.specs.Points.{InBox};
ghost use Rattle.sp_model.specs.Changes.{sides};
ghost use Rattle.sp_model.specs.Plans.{IsPlan, cost_of};
ghost use Rattle.sp_model.specs.Problems.{problem_in, scenarios};

use crate::values::{cost_at, point};
use boxed_problem::column_value;
use sp_model::{Plan, Run, factor};
use wide_num::{plus, times};

// The cost of a column in a scenario, times the scale and the weight.
fn line_at(run: &Run, scenario: u32, column: u32) -> i128
    requires scenario { scenario < scenarios run.now }
    requires column { column < length run.now.program.columns }
    ensures { result ≡ number_at (problem_in run.now scenario).line column }
{
    times(factor(run, scenario), cost_at(run, scenario, column))
}

// What a column adds to the value of a scenario's point.
fn column_part(run: &Run, scenario: u32, point: &[i64], column: u32) -> i128
    requires inside { InBox (sides run.now.program) point.now }
    requires scenario { scenario < scenarios run.now }
    requires column { column < length run.now.program.columns }
    ensures { result
        ≡ value_part (problem_in run.now scenario).line
        (problem_in run.now scenario).square point.now column }
{
    column_value(line_at(run, scenario, column), 0, point[column as usize])
}

// The value of a point in the problem of a scenario.
fn value(run: &Run, scenario: u32, point: &[i64]) -> i128
    requires inside { InBox (sides run.now.program) point.now }
    requires scenario { scenario < scenarios run.now }
    ensures { result ≡ value_of (problem_in run.now scenario) point.now }
{
    let mut sum = times(factor(run, scenario), run.program.constant);
    for column in 0..run.program.columns.len() as u32 {
        sum = plus(sum, column_part(run, scenario, point, column));
    }
    sum
}

/// The cost of a plan, in the run's unit: the sum of the values of its points,
/// each in the problem of its scenario. It takes no memory.
pub fn cost(run: &Run, plan: &Plan) -> i128
    requires { IsPlan run.now plan.now }
    ensures { result ≡ cost_of run.now plan.now }
{
    let mut sum = 0i128;
    for scenario in 0..run.program.scenarios.len() as u32 {
        sum = plus(sum, value(run, scenario, point(plan, scenario)));
    }
    sum
}
