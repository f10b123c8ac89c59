ghost use Rattle.std.specs.Prelude.{◌≡◌, ◌*◌, ◌<◌, ◌^◌, ◌==◌, ◌&&◌, ◌+ℤ◌, pos, true, length, replicate, slice_set, FitsSigned, IfOk};
ghost use Rattle.std.specs.Int.{w128};
ghost use Rattle.std.specs.List.{list_any};
ghost use Rattle.base_words.specs.Sums.{number_at};
ghost use Rattle.hedging.specs.Tables.{ArePulls, AreSums, HaveGained, IsTable, gain_of};
ghost use Rattle.put_words.specs.NextMultipliers.{next_of, no_multipliers};
ghost use Rattle.put_words.specs.NodeSums.{AreInside, node_for, weight_of};
ghost use Rattle.run_calls.specs.MultiplierTests.{AreLong, AreSized, is_of_stage};
ghost use Rattle.sp_model.specs.Problems.{scenarios};
ghost use Rattle.tree_core.specs.Nodes.{scenarios_at};

use crate::moving::{move_in, pull};
use crate::sums::{Sums, node_sum, weight_over};
use run_calls::{is_of_stage, members};
use sp_model::{Multipliers, Run};
use std::alloc::{AllocError, Global};
use wide_num::{List, plus};

/// What the cells of a table gain: the pulls of the hedged problems, or the moves
/// of the multipliers.
#[derive(Clone, Copy, Debug, Drop, PartialEq, Eq)]
pub enum Gain {
    Pull,
    Move,
}

// A table of zeros.
fn zeros(alloc: Global, run: &Run) -> Result<List<i128>, AllocError>
    ensures { IfOk result
        (λ cells. cells ≡ replicate (scenarios run.now * run.now.nonleaf) (pos 0)) }
{
    let values = vec![in alloc; 0i128; run.program.scenarios.len() * run.nonleaf as usize]?;
    Ok(List::from_vec(values))
}

// Adds to the number at a place.
fn add_to(cells: &mut List<i128>, place: usize, gain: i128)
    requires there { place < length cells.old }
    requires fits { FitsSigned w128 (number_at cells.old place +ℤ gain) }
    ensures { cells.new ≡ slice_set cells.old place (number_at cells.old place +ℤ gain) }
{
    let sum = plus(cells.as_slice()[place], gain);
    cells.set(place, sum);
}

// What the cell of a scenario and a column gains by the sums of its node.
fn gain_of(
    run: &Run,
    x: &List<i64>,
    gain: Gain,
    sums: &Sums,
    node: u32,
    scenario: u32,
    column: u32,
) -> i128
    requires inside { AreInside run.now x.now }
    requires sums { AreSums run.now x.now node column sums.now }
    requires node { node < length run.now.program.tree.nodes }
    requires is { node ≡ node_for run.now scenario column }
    requires scenario { scenario < scenarios run.now }
    requires column { column < run.now.nonleaf }
    ensures { result ≡ gain_of run.now x.now gain scenario column }
{
    match gain {
        Gain::Pull => pull(run, x, sums, node, scenario, column),
        Gain::Move => move_in(run, x, sums, node, scenario, column),
    }
}

// Lets the cell of a scenario and a column gain.
fn add_cell(
    run: &Run,
    x: &List<i64>,
    gain: Gain,
    sums: &Sums,
    node: u32,
    scenario: u32,
    column: u32,
    cells: &mut List<i128>,
)
    requires inside { AreInside run.now x.now }
    requires sums { AreSums run.now x.now node column sums.now }
    requires node { node < length run.now.program.tree.nodes }
    requires is { node ≡ node_for run.now scenario column }
    requires scenario { scenario < scenarios run.now }
    requires column { column < run.now.nonleaf }
    requires table { IsTable run.now (2 ^ 125) cells.old }
    ensures { HaveGained run.now (λ s j. (j == column) && (scenario == s))
        (gain_of run.now x.now gain) cells.old cells.new }
{
    let gained = gain_of(run, x, gain, sums, node, scenario, column);
    add_to(
        cells,
        scenario as usize * run.nonleaf as usize + column as usize,
        gained,
    );
}

// Lets the cells of a node in a column of its stage gain.
fn add_members(
    run: &Run,
    x: &List<i64>,
    gain: Gain,
    sums: &Sums,
    node: u32,
    column: u32,
    cells: &mut List<i128>,
)
    requires inside { AreInside run.now x.now }
    requires sums { AreSums run.now x.now node column sums.now }
    requires node { node < length run.now.program.tree.nodes }
    requires column { column < run.now.nonleaf }
    requires of_stage { is_of_stage run.now node column ≡ true }
    requires table { IsTable run.now (2 ^ 124) cells.old }
    ensures { HaveGained run.now
        (λ s j. (j == column)
        && list_any (λ u. u == s) (scenarios_at run.now.program.tree.nodes node))
        (gain_of run.now x.now gain) cells.old cells.new }
{
    let members = members(run, node);
    for i in 0..members.len() {
        add_cell(run, x, gain, sums, node, members[i], column, cells);
    }
}

// Lets the cells of a node in a column gain, where the column is of its stage.
fn add_column(
    run: &Run,
    x: &List<i64>,
    gain: Gain,
    weight: i128,
    node: u32,
    column: u32,
    cells: &mut List<i128>,
)
    requires inside { AreInside run.now x.now }
    requires node { node < length run.now.program.tree.nodes }
    requires weight { weight ≡ weight_of run.now (scenarios_at run.now.program.tree.nodes node) }
    requires column { column < run.now.nonleaf }
    requires table { IsTable run.now (2 ^ 124) cells.old }
    ensures { HaveGained run.now (λ s j. (node_for run.now s j == node) && (j == column))
        (gain_of run.now x.now gain) cells.old cells.new }
{
    if is_of_stage(run, node, column) {
        let sum = node_sum(run, x, node, column);
        add_members(run, x, gain, &Sums { weight, sum }, node, column, cells);
    }
}

// Lets the cells of a node in the columns of its stage gain.
fn add_node(run: &Run, x: &List<i64>, gain: Gain, node: u32, cells: &mut List<i128>)
    requires inside { AreInside run.now x.now }
    requires node { node < length run.now.program.tree.nodes }
    requires table { IsTable run.now (2 ^ 123) cells.old }
    ensures { HaveGained run.now (λ s j. node_for run.now s j == node)
        (gain_of run.now x.now gain) cells.old cells.new }
{
    let weight = weight_over(run, members(run, node));
    for column in 0..run.nonleaf {
        add_column(run, x, gain, weight, node, column, cells);
    }
}

// Lets all cells gain, node after node.
fn add_all(run: &Run, x: &List<i64>, gain: Gain, cells: &mut List<i128>)
    requires inside { AreInside run.now x.now }
    requires table { IsTable run.now (2 ^ 122) cells.old }
    ensures { HaveGained run.now (λ s j. true) (gain_of run.now x.now gain) cells.old cells.new }
{
    for node in 0..run.program.tree.nodes.len() as u32 {
        add_node(run, x, gain, node, cells);
    }
}

/// The pulls of all scenarios at the values of a put.
pub fn pulls(alloc: Global, run: &Run, x: &List<i64>) -> Result<List<i128>, AllocError>
    requires { AreInside run.now x.now }
    ensures { IfOk result (ArePulls run.now x.now) }
{
    let mut cells = zeros(alloc, run)?;
    add_all(run, x, Gain::Pull, &mut cells);
    Ok(cells)
}

/// Moves multipliers by some values. It takes no memory.
pub fn move_on(run: &Run, x: &List<i64>, multipliers: &mut Multipliers)
    requires long { AreLong run.now multipliers.old }
    requires sized { AreSized run.now multipliers.old }
    requires inside { AreInside run.now x.now }
    ensures { multipliers.new ≡ next_of run.now multipliers.old x.now }
{
    add_all(run, x, Gain::Move, &mut multipliers.values);
}

/// Multipliers of 0.
pub fn no_multipliers(alloc: Global, run: &Run) -> Result<Multipliers, AllocError>
    ensures { IfOk result (λ none. none ≡ no_multipliers run.now) }
{
    Ok(Multipliers {
        values: zeros(alloc, run)?,
    })
}
