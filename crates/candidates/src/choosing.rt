ghost use Rattle.std.specs.Prelude.{◌≡◌, ◌%◌, ◌<◌, ◌≤ℤ◌, length, slice_index};
ghost use Rattle.boxed_problem.specs.Sides.{side_at};
ghost use Rattle.candidates.specs.Choices.{AreFit, chosen, mean_in};
ghost use Rattle.agreement.specs.Agreeing.{AreWhole};
ghost use Rattle.log_words.specs.Candidates.{cut};
ghost use Rattle.put_words.specs.NodeSums.{AreInside};
ghost use Rattle.sp_model.specs.Changes.{sides};
ghost use Rattle.sp_model.specs.Problems.{scenarios};
ghost use Rattle.tree_core.specs.Nodes.{scenarios_at};

use crate::summing::{mean_over, value};
use boxed_problem::Side;
use run_calls::members;
use sp_model::Run;
use wide_num::List;

/// What a node takes of its scenarios' values.
#[derive(Clone, Copy, Drop)]
pub enum Choice {
    /// The values of its scenario with this number, counted round from 0.
    Number(u32),
    /// The weighted mean, to the nearest whole number and cut to the column's box.
    Mean,
}

// The scenario of a node with a number, counted round.
fn numbered(run: &Run, node: u32, number: u32) -> u32
    requires { node < length run.now.program.tree.nodes }
    ensures value { result
        ≡ slice_index (scenarios_at run.now.program.tree.nodes node)
        (number % length (scenarios_at run.now.program.tree.nodes node)) }
    ensures there { result < scenarios run.now }
{
    let members = members(run, node);
    members[number as usize % members.len()]
}

// The box of a column.
fn side_at(run: &Run, column: u32) -> Side
    requires { column < length run.now.program.columns }
    ensures { result ≡ side_at (sides run.now.program) column }
{
    let column = run.program.columns.as_slice()[column as usize];
    Side {
        lower: column.lower,
        upper: column.upper,
    }
}

// A value, or the nearest one on a side.
fn cut(side: Side, value: i128) -> i64
    requires { side.lower ≤ℤ side.upper }
    ensures { result ≡ cut side value }
{
    if value <= i128::from(side.lower) {
        return side.lower;
    }
    if i128::from(side.upper) <= value {
        return side.upper;
    }
    value as i64
}

// The mean of a node in a nonleaf column, cut to the column's box.
fn cut_mean(run: &Run, x: &List<i64>, node: u32, column: u32) -> i64
    requires inside { AreInside run.now x.now }
    requires node { node < length run.now.program.tree.nodes }
    requires column { column < run.now.nonleaf }
    ensures { result
        ≡ cut (side_at (sides run.now.program) column)
        (mean_in run.now x.now (scenarios_at run.now.program.tree.nodes node) column) }
{
    cut(side_at(run, column), mean_over(run, x, node, column))
}

/// What a node takes in a nonleaf column.
pub fn chosen(run: &Run, x: &List<i64>, choice: Choice, node: u32, column: u32) -> i64
    requires whole { AreWhole run.now x.now }
    requires fit { AreFit run.now x.now choice }
    requires node { node < length run.now.program.tree.nodes }
    requires column { column < run.now.nonleaf }
    ensures { result
        ≡ chosen run.now x.now choice (scenarios_at run.now.program.tree.nodes node) column }
{
    match choice {
        Choice::Number(number) => value(run, x, numbered(run, node, number), column),
        Choice::Mean => cut_mean(run, x, node, column),
    }
}
