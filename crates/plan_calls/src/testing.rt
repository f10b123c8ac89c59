ghost use Rattle.std.specs.Prelude.{◌≡◌, ◌<◌, length, OnErr, OnOk};
ghost use Rattle.std.specs.List.{All};
ghost use Rattle.std.specs.Ordering.{int_eq};
ghost use Rattle.std.specs.Result.{result_err};
ghost use Rattle.base_words.specs.FirstAnswers.{first_some};
ghost use Rattle.boxed_problem.specs.Points.{InBox};
ghost use Rattle.boxed_problem.specs.Sides.{side_at};
ghost use Rattle.sp_model.specs.Changes.{sides};
ghost use Rattle.sp_model.specs.Plans.{IsPlan, point_of};
ghost use Rattle.sp_model.specs.Problems.{scenarios};
ghost use Rattle.tree_core.specs.Nodes.{scenarios_at};
ghost use Rattle.plan_calls.specs.PlanTests.{ArePoints, differs_at, first_value, infeasible, infeasible_in, lies_on, no_plan, outside_at, outside_in, split, split_at, split_in, unmet_at, unmet_in, value_in};

use crate::activities::activity;
use crate::failure::NoPlan;
use crate::values::{limits_at, point};
use boxed_problem::{Side, is_met};
use run_calls::{is_of_stage, members};
use sp_model::{Plan, Run};

// The value of a scenario in a column.
fn value(run: &Run, plan: &Plan, scenario: u32, column: u32) -> i64
    requires points { ArePoints run.now plan.now }
    requires scenario { scenario < scenarios run.now }
    requires column { column < length run.now.program.columns }
    ensures { result ≡ value_in plan.now scenario column }
{
    point(plan, scenario)[column as usize]
}

// The box of a column.
fn side_at(run: &Run, column: u32) -> Side
    requires { column < length run.now.program.columns }
    ensures { result ≡ side_at (sides run.now.program) column }
{
    let column = run.program.columns.as_slice()[column as usize];
    Side {
        lower: column.lower,
        upper: column.upper,
    }
}

// Whether a value lies on a side.
fn lies_on(side: Side, value: i64) -> bool
    ensures { result ≡ lies_on side value }
{
    side.lower <= value && value <= side.upper
}

// The value of a scenario in a column, where it lies outside the box.
fn test_value(run: &Run, plan: &Plan, scenario: u32, column: u32) -> Result<(), NoPlan>
    requires points { ArePoints run.now plan.now }
    requires scenario { scenario < scenarios run.now }
    requires column { column < length run.now.program.columns }
    ensures { result_err result ≡ outside_at run.now plan.now scenario column }
{
    let value = value(run, plan, scenario, column);
    if lies_on(side_at(run, column), value) {
        return Ok(());
    }
    Err(NoPlan::Outside {
        scenario,
        column,
        value,
    })
}

// The first column in which the point of a scenario lies outside the box.
fn test_box(run: &Run, plan: &Plan, scenario: u32) -> Result<(), NoPlan>
    requires points { ArePoints run.now plan.now }
    requires scenario { scenario < scenarios run.now }
    ensures first { result_err result ≡ outside_in run.now plan.now scenario }
    ensures inside { OnOk result
        (InBox (sides run.now.program) (point_of plan.now scenario)) }
{
    for column in 0..run.program.columns.len() as u32 {
        if let Err(failure) = test_value(run, plan, scenario, column) {
            return Err(failure);
        }
    }
    Ok(())
}

// A row whose activity lies outside its limits in a scenario.
fn test_row(run: &Run, plan: &Plan, scenario: u32, row: u32) -> Result<(), NoPlan>
    requires points { ArePoints run.now plan.now }
    requires scenario { scenario < scenarios run.now }
    requires inside { InBox (sides run.now.program) (point_of plan.now scenario) }
    requires row { row < length run.now.program.rows }
    ensures { result_err result ≡ unmet_at run.now plan.now scenario row }
{
    let activity = activity(run, scenario, point(plan, scenario), row);
    if is_met(limits_at(run, scenario, row), activity) {
        return Ok(());
    }
    Err(NoPlan::Row {
        scenario,
        row,
        activity,
    })
}

// The first such row of a scenario.
fn test_rows(run: &Run, plan: &Plan, scenario: u32) -> Result<(), NoPlan>
    requires points { ArePoints run.now plan.now }
    requires scenario { scenario < scenarios run.now }
    requires inside { InBox (sides run.now.program) (point_of plan.now scenario) }
    ensures { result_err result ≡ unmet_in run.now plan.now scenario }
{
    for row in 0..run.program.rows.len() as u32 {
        if let Err(failure) = test_row(run, plan, scenario, row) {
            return Err(failure);
        }
    }
    Ok(())
}

// Why the point of a scenario isn't feasible.
fn test_point(run: &Run, plan: &Plan, scenario: u32) -> Result<(), NoPlan>
    requires points { ArePoints run.now plan.now }
    requires scenario { scenario < scenarios run.now }
    ensures { result_err result ≡ infeasible_in run.now plan.now scenario }
{
    if let Err(failure) = test_box(run, plan, scenario) {
        return Err(failure);
    }
    test_rows(run, plan, scenario)
}

// The first scenario whose point isn't feasible.
fn test_points(run: &Run, plan: &Plan) -> Result<(), NoPlan>
    requires { ArePoints run.now plan.now }
    ensures { result_err result ≡ infeasible run.now plan.now }
{
    for scenario in 0..run.program.scenarios.len() as u32 {
        if let Err(failure) = test_point(run, plan, scenario) {
            return Err(failure);
        }
    }
    Ok(())
}

// Whether two values are the same.
fn is_same(value: i64, first: i64) -> bool
    ensures { result ≡ int_eq value first }
{
    value == first
}

// A scenario whose value differs from that of another one of its node.
fn test_member(
    run: &Run,
    plan: &Plan,
    node: u32,
    column: u32,
    beside: u32,
    scenario: u32,
) -> Result<(), NoPlan>
    requires points { ArePoints run.now plan.now }
    requires beside { beside < scenarios run.now }
    requires scenario { scenario < scenarios run.now }
    requires column { column < length run.now.program.columns }
    ensures { result_err result
        ≡ differs_at plan.now node column (value_in plan.now beside column) scenario }
{
    let first = value(run, plan, beside, column);
    let other = value(run, plan, scenario, column);
    if is_same(other, first) {
        return Ok(());
    }
    Err(NoPlan::Split {
        node,
        column,
        first,
        other,
    })
}

// The first such scenario among some.
fn test_members(
    run: &Run,
    plan: &Plan,
    node: u32,
    column: u32,
    beside: u32,
    members: &[u32],
) -> Result<(), NoPlan>
    requires points { ArePoints run.now plan.now }
    requires beside { beside < scenarios run.now }
    requires members { All (λ s. s < scenarios run.now) members.now }
    requires column { column < length run.now.program.columns }
    ensures { result_err result
        ≡ first_some
        (differs_at plan.now node column (value_in plan.now beside column)) members.now }
{
    for scenario in members {
        if let Err(failure) = test_member(run, plan, node, column, beside, *scenario) {
            return Err(failure);
        }
    }
    Ok(())
}

// The first scenario of a node with another value than its first one, in a column
// of the node's stage.
fn test_column(run: &Run, plan: &Plan, node: u32, column: u32) -> Result<(), NoPlan>
    requires points { ArePoints run.now plan.now }
    requires node { node < length run.now.program.tree.nodes }
    requires column { column < length run.now.program.columns }
    ensures { result_err result ≡ split_at run.now plan.now node column }
{
    if !is_of_stage(run, node, column) {
        return Ok(());
    }
    let members = members(run, node);
    test_members(run, plan, node, column, members[0], members)
}

// The first such column of a node.
fn test_node(run: &Run, plan: &Plan, node: u32) -> Result<(), NoPlan>
    requires points { ArePoints run.now plan.now }
    requires node { node < length run.now.program.tree.nodes }
    ensures { result_err result ≡ split_in run.now plan.now node }
{
    for column in 0..run.program.columns.len() as u32 {
        if let Err(failure) = test_column(run, plan, node, column) {
            return Err(failure);
        }
    }
    Ok(())
}

// The first such node.
fn test_nodes(run: &Run, plan: &Plan) -> Result<(), NoPlan>
    requires { ArePoints run.now plan.now }
    ensures { result_err result ≡ split run.now plan.now }
{
    for node in 0..run.program.tree.nodes.len() as u32 {
        if let Err(failure) = test_node(run, plan, node) {
            return Err(failure);
        }
    }
    Ok(())
}

/// Tests that points of all scenarios are a plan, and answers the first place
/// where they aren't: scenario by scenario first the boxes of the columns and then
/// the rows, and behind them node by node the columns of its stage. It takes no
/// memory.
pub fn is_plan(run: &Run, plan: &Plan) -> Result<(), NoPlan>
    requires { ArePoints run.now plan.now }
    ensures first { result_err result ≡ no_plan run.now plan.now }
    ensures plan { OnOk result (IsPlan run.now plan.now) }
    ensures none { OnErr result (IsPlan run.now plan.now → ⊥) }
{
    if let Err(failure) = test_points(run, plan) {
        return Err(failure);
    }
    test_nodes(run, plan)
}
