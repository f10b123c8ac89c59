ghost use Rattle.std.specs.Prelude.{◌≡◌, ◌<◌, ◌*ℤ◌, length, slice_index_or};
ghost use Rattle.std.specs.List.{All, fold};
ghost use Rattle.base_words.specs.Sums.{number_at};
ghost use Rattle.boxed_problem.specs.BoxedFacts.{limits_at};
ghost use Rattle.sp_model.specs.Changes.{core_data};
ghost use Rattle.sp_model.specs.Plans.{point_of};
ghost use Rattle.sp_model.specs.Problems.{data_at, scenario_at, scenarios};
ghost use Rattle.sp_model.specs.Values.{cell_in, is_cell};
ghost use Rattle.plan_calls.specs.LookUps.{cost_with, limits_with};

use boxed_problem::{Entry, Limits};
use sp_model::{Change, Plan, Program, Run};

/// The changes of a scenario.
pub fn changes(run: &Run, scenario: u32) -> &[Change]
    requires { scenario < scenarios run.now }
    ensures { result.now ≡ (scenario_at run.now scenario).changes }
{
    run.program.scenarios.as_slice()[scenario as usize]
        .changes
        .as_slice()
}

/// The point of a scenario.
pub fn point(plan: &Plan, scenario: u32) -> &[i64]
    requires { scenario < length plan.now.points }
    ensures { result.now ≡ point_of plan.now scenario }
{
    plan.points.as_slice()[scenario as usize].as_slice()
}

// The cost that a change gives a column, else the one before.
fn cost_with(column: u32, before: i128, change: &Change) -> i128
    ensures { result ≡ cost_with column before change.now }
{
    match change {
        Change::Cost { column: own, value } if *own == column => *value,
        Change::Cost { .. } | Change::Cell { .. } | Change::Limits { .. } => before,
    }
}

/// The cost of a column in a scenario.
pub fn cost_at(run: &Run, scenario: u32, column: u32) -> i128
    requires scenario { scenario < scenarios run.now }
    requires column { column < length run.now.program.columns }
    ensures { result ≡ number_at (data_at run.now scenario).costs column }
{
    let mut cost = run.program.columns.as_slice()[column as usize].cost;
    for change in changes(run, scenario) {
        cost = cost_with(column, cost, change);
    }
    cost
}

// The limits that a change gives a row, else those before.
fn limits_with(row: u32, before: Limits, change: &Change) -> Limits
    ensures { result ≡ limits_with row before change.now }
{
    match change {
        Change::Limits {
            row: own,
            lower,
            upper,
        } if *own == row => Limits {
            lower: *lower,
            upper: *upper,
        },
        Change::Cost { .. } | Change::Cell { .. } | Change::Limits { .. } => before,
    }
}

// The limits of a row in the core.
fn core_limits(run: &Run, row: u32) -> Limits
    requires { row < length run.now.program.rows }
    ensures { result ≡ limits_at (core_data run.now.program).limits row }
{
    let row = run.program.rows.as_slice()[row as usize];
    Limits {
        lower: row.lower,
        upper: row.upper,
    }
}

/// The limits of a row in a scenario.
pub fn limits_at(run: &Run, scenario: u32, row: u32) -> Limits
    requires scenario { scenario < scenarios run.now }
    requires row { row < length run.now.program.rows }
    ensures { result ≡ limits_at (data_at run.now scenario).limits row }
{
    let mut limits = core_limits(run, row);
    for change in changes(run, scenario) {
        limits = limits_with(row, limits, change);
    }
    limits
}

// Whether an entry is that of a row and a column.
fn is_cell(row: u32, column: u32, entry: &Entry) -> bool
    ensures { result ≡ is_cell row column entry.now }
{
    entry.column == column && entry.row == row
}

/// The core's entry of a row and a column, 0 where there is none.
pub fn core_cell(program: &Program, row: u32, column: u32) -> i128
    ensures { result ≡ cell_in (core_data program.now) row column }
{
    for entry in program.entries.as_slice() {
        if is_cell(row, column, entry) {
            return entry.value;
        }
    }
    0
}
