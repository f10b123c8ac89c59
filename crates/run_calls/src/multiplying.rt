ghost use Rattle.std.specs.Prelude.{◌≡◌, ◌&&◌, not, ◌+◌, ◌*◌, ◌<◌, ◌≤◌, ℤ, ◌+ℤ◌, pos, length, max, unsigned_abs, slice_index_or, FitsSigned, OnOk};
ghost use Rattle.std.specs.Int.{w128};
ghost use Rattle.std.specs.List.{All};
ghost use Rattle.std.specs.Ordering.{int_eq};
ghost use Rattle.std.specs.Result.{result_err};
ghost use Rattle.base_words.specs.ListSums.{sum_z};
ghost use Rattle.base_words.specs.Sums.{number_at};
ghost use Rattle.boxed_problem.specs.Sides.{reach, side_at};
ghost use Rattle.sp_model.specs.Changes.{sides};
ghost use Rattle.run_calls.specs.MultiplierTests.{AreLong, AreMembers, AreSized, is_of_stage, most_at, too_big, too_big_at, too_big_in, unbalanced, unbalanced_at, unbalanced_in};
ghost use Rattle.sp_model.specs.Plans.{AreBalanced, multiplier_of, no_column, stage_of};
ghost use Rattle.sp_model.specs.Problems.{scenarios};
ghost use Rattle.sp_model.specs.Reaching.{box_reach, step_reach};
ghost use Rattle.tree_core.specs.Nodes.{no_node, scenarios_at};

use sp_model::{Column, Multipliers, Run};

/// A multiplier of a magnitude above `most`, the greatest one that a
/// multiplier of its column may have.
#[derive(Clone, Copy, Debug, Drop, PartialEq, Eq)]
pub struct TooBig {
    pub scenario: u32,
    pub column: u32,
    pub value: i128,
    pub most: i128,
}

/// A node and a column of its stage whose multipliers sum to another number
/// than 0.
#[derive(Clone, Copy, Debug, Drop, PartialEq, Eq)]
pub struct Unbalanced {
    pub node: u32,
    pub column: u32,
    pub sum: i128,
}

// A column of the run.
fn column_at(run: &Run, column: u32) -> Column
    requires { column < length run.now.program.columns }
    ensures { result ≡ slice_index_or run.now.program.columns column no_column }
{
    run.program.columns.as_slice()[column as usize]
}

// The greater magnitude of the ends of a column's box.
fn greater_end(column: Column) -> u128
    ensures { result ≡ max (unsigned_abs column.lower) (unsigned_abs column.upper) }
{
    let size = column.lower.unsigned_abs().max(column.upper.unsigned_abs());
    u128::from(size)
}

// The same of a column by its number.
fn box_size(run: &Run, column: u32) -> u128
    requires { column < length run.now.program.columns }
    ensures { result ≡ box_reach run.now.program column }
{
    greater_end(column_at(run, column))
}

// How far a multiplier of a column moves at most from a put to the next.
fn step(run: &Run, column: u32) -> u128
    requires { column < run.now.nonleaf }
    ensures { result ≡ step_reach run.now.program run.now.options run.now.total column }
{
    let rate = 2 * run.options.rho.unsigned_abs() * run.total.unsigned_abs();
    rate * box_size(run, column) + run.program.scenarios.len() as u128
}

/// The greatest magnitude of a multiplier of a nonleaf column: as many steps
/// as there are puts at most, and one more.
pub fn most(run: &Run, column: u32) -> u128
    requires { column < run.now.nonleaf }
    ensures { result ≡ most_at run.now column }
{
    (u128::from(run.options.iterations) + 2) * step(run, column)
}

/// The multiplier of a scenario and a nonleaf column.
pub fn multiplier(run: &Run, multipliers: &Multipliers, scenario: u32, column: u32) -> i128
    requires long { AreLong run.now multipliers.now }
    requires scenario { scenario < scenarios run.now }
    requires column { column < run.now.nonleaf }
    ensures { result ≡ multiplier_of run.now multipliers.now scenario column }
{
    multipliers.values.as_slice()[scenario as usize * run.nonleaf as usize + column as usize]
}

// The multiplier of a scenario and a column, where it is too big.
fn test_size(run: &Run, multipliers: &Multipliers, scenario: u32, column: u32) -> Result<(), TooBig>
    requires long { AreLong run.now multipliers.now }
    requires scenario { scenario < scenarios run.now }
    requires column { column < run.now.nonleaf }
    ensures { result_err result ≡ too_big_at run.now multipliers.now scenario column }
{
    let value = multiplier(run, multipliers, scenario, column);
    let most = most(run, column);
    if most < value.unsigned_abs() {
        return Err(TooBig {
            scenario,
            column,
            value,
            most: most as i128,
        });
    }
    Ok(())
}

// The first multiplier of a scenario that is too big.
fn test_scenario(run: &Run, multipliers: &Multipliers, scenario: u32) -> Result<(), TooBig>
    requires long { AreLong run.now multipliers.now }
    requires scenario { scenario < scenarios run.now }
    ensures { result_err result ≡ too_big_in run.now multipliers.now scenario }
{
    for column in 0..run.nonleaf {
        if let Err(fault) = test_size(run, multipliers, scenario, column) {
            return Err(fault);
        }
    }
    Ok(())
}

/// Tests that no multiplier is too big, and answers the first that is, scenario
/// after scenario.
pub fn sized(run: &Run, multipliers: &Multipliers) -> Result<(), TooBig>
    requires { AreLong run.now multipliers.now }
    ensures first { result_err result ≡ too_big run.now multipliers.now }
    ensures sized { OnOk result (AreSized run.now multipliers.now) }
{
    for scenario in 0..run.program.scenarios.len() as u32 {
        if let Err(fault) = test_scenario(run, multipliers, scenario) {
            return Err(fault);
        }
    }
    Ok(())
}

/// The scenarios of a node, of which there is one at least.
pub fn members(run: &Run, node: u32) -> &[u32]
    requires { node < length run.now.program.tree.nodes }
    ensures value { result.now ≡ scenarios_at run.now.program.tree.nodes node }
    ensures some { 0 < length result.now }
    ensures there { All (λ s. s < scenarios run.now) result.now }
    ensures members { AreMembers run.now result.now }
{
    run.program.tree.scenarios(node).as_slice()
}

// The sum of the multipliers of some scenarios in a column.
fn sum_over(run: &Run, multipliers: &Multipliers, members: &[u32], column: u32) -> i128
    requires long { AreLong run.now multipliers.now }
    requires sized { AreSized run.now multipliers.now }
    requires members { AreMembers run.now members.now }
    requires column { column < run.now.nonleaf }
    ensures { result ≡ sum_z (λ s. multiplier_of run.now multipliers.now s column) members.now }
{
    let mut sum = 0i128;
    for scenario in members {
        sum += multiplier(run, multipliers, *scenario, column);
    }
    sum
}

/// Whether a column is of the stage of a node.
pub fn is_of_stage(run: &Run, node: u32, column: u32) -> bool
    requires node { node < length run.now.program.tree.nodes }
    requires column { column < length run.now.program.columns }
    ensures { result ≡ is_of_stage run.now node column }
{
    column_at(run, column).stage == run.program.tree.nodes.as_slice()[node as usize].stage
}

// Whether a column is of the stage of a node and its sum there isn't 0.
fn is_unbalanced(run: &Run, node: u32, column: u32, sum: i128) -> bool
    requires node { node < length run.now.program.tree.nodes }
    requires column { column < length run.now.program.columns }
    ensures { result ≡ (is_of_stage run.now node column && not (int_eq sum (pos 0))) }
{
    is_of_stage(run, node, column) && sum != 0
}

// A node and a column, where they don't sum to 0 although they should.
fn test_balance(
    run: &Run,
    multipliers: &Multipliers,
    node: u32,
    column: u32,
) -> Result<(), Unbalanced>
    requires long { AreLong run.now multipliers.now }
    requires sized { AreSized run.now multipliers.now }
    requires node { node < length run.now.program.tree.nodes }
    requires column { column < run.now.nonleaf }
    ensures { result_err result ≡ unbalanced_at run.now multipliers.now node column }
{
    let sum = sum_over(run, multipliers, members(run, node), column);
    if is_unbalanced(run, node, column, sum) {
        return Err(Unbalanced { node, column, sum });
    }
    Ok(())
}

// The first such column of a node.
fn test_node(run: &Run, multipliers: &Multipliers, node: u32) -> Result<(), Unbalanced>
    requires long { AreLong run.now multipliers.now }
    requires sized { AreSized run.now multipliers.now }
    requires node { node < length run.now.program.tree.nodes }
    ensures { result_err result ≡ unbalanced_in run.now multipliers.now node }
{
    for column in 0..run.nonleaf {
        if let Err(fault) = test_balance(run, multipliers, node, column) {
            return Err(fault);
        }
    }
    Ok(())
}

/// Tests that sized multipliers sum to 0 over each node in the columns of its
/// stage, and answers the first node and column where they don't.
pub fn balanced(run: &Run, multipliers: &Multipliers) -> Result<(), Unbalanced>
    requires long { AreLong run.now multipliers.now }
    requires sized { AreSized run.now multipliers.now }
    ensures first { result_err result ≡ unbalanced run.now multipliers.now }
    ensures balanced { OnOk result (AreBalanced run.now multipliers.now) }
{
    for node in 0..run.program.tree.nodes.len() as u32 {
        if let Err(fault) = test_node(run, multipliers, node) {
            return Err(fault);
        }
    }
    Ok(())
}
