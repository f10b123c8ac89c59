ghost use Rattle.std.specs.Prelude.{◌≡◌, ◌<◌, ◌*ℤ◌, length};
ghost use Rattle.hedging.specs.Tables.{AreSums};
ghost use Rattle.put_words.specs.NextMultipliers.{rounded_down};
ghost use Rattle.put_words.specs.NodeSums.{AreInside, sum_of, value_at, weight_at, weight_of};
ghost use Rattle.run_calls.specs.MultiplierTests.{AreMembers};
ghost use Rattle.sp_model.specs.Problems.{scenarios};
ghost use Rattle.tree_core.specs.Nodes.{scenarios_at};

use put_words::quotient;
use run_calls::members;
use sp_model::{Run, weight};
use wide_num::{List, plus, times};

// The value of a scenario in a nonleaf column.
fn value(run: &Run, x: &List<i64>, scenario: u32, column: u32) -> i64
    requires inside { AreInside run.now x.now }
    requires scenario { scenario < scenarios run.now }
    requires column { column < run.now.nonleaf }
    ensures { result ≡ value_at run.now x.now scenario column }
{
    x.as_slice()[scenario as usize * run.nonleaf as usize + column as usize]
}

// The same, in 128 bits.
pub fn wide_value(run: &Run, x: &List<i64>, scenario: u32, column: u32) -> i128
    requires inside { AreInside run.now x.now }
    requires scenario { scenario < scenarios run.now }
    requires column { column < run.now.nonleaf }
    ensures { result ≡ value_at run.now x.now scenario column }
{
    i128::from(value(run, x, scenario, column))
}

// The same times the scenario's weight.
fn weighted(run: &Run, x: &List<i64>, scenario: u32, column: u32) -> i128
    requires inside { AreInside run.now x.now }
    requires scenario { scenario < scenarios run.now }
    requires column { column < run.now.nonleaf }
    ensures { result ≡ weight_at run.now scenario *ℤ value_at run.now x.now scenario column }
{
    times(weight(run, scenario), wide_value(run, x, scenario, column))
}

// The weighted sum of a column over some scenarios.
fn sum_over(run: &Run, x: &List<i64>, members: &[u32], column: u32) -> i128
    requires inside { AreInside run.now x.now }
    requires members { AreMembers run.now members.now }
    requires column { column < run.now.nonleaf }
    ensures { result ≡ sum_of run.now x.now members.now column }
{
    let mut sum = 0i128;
    for scenario in members {
        sum = plus(sum, weighted(run, x, *scenario, column));
    }
    sum
}

/// The weight of some scenarios.
pub fn weight_over(run: &Run, members: &[u32]) -> i128
    requires { AreMembers run.now members.now }
    ensures { result ≡ weight_of run.now members.now }
{
    let mut sum = 0i128;
    for scenario in members {
        sum = plus(sum, weight(run, *scenario));
    }
    sum
}

/// The weighted sum of a nonleaf column over a node: weight times value, for
/// values that stand scenario after scenario in the boxes of their columns.
pub fn node_sum(run: &Run, x: &List<i64>, node: u32, column: u32) -> i128
    requires inside { AreInside run.now x.now }
    requires node { node < length run.now.program.tree.nodes }
    requires column { column < run.now.nonleaf }
    ensures { result ≡ sum_of run.now x.now (scenarios_at run.now.program.tree.nodes node) column }
{
    sum_over(run, x, members(run, node), column)
}

/// What a node sums up in a column: the weight of its scenarios, and their
/// weighted values.
#[derive(Drop)]
pub struct Sums {
    pub weight: i128,
    pub sum: i128,
}

impl Sums {
    // A number over the weight of the node, rounded down.
    pub fn share(&self, run: &Run, x: &List<i64>, node: u32, column: u32, number: i128) -> i128
        requires sums { AreSums run.now x.now node column self.now }
        requires node { node < length run.now.program.tree.nodes }
        ensures { result
            ≡ rounded_down number (weight_of run.now
            (scenarios_at run.now.program.tree.nodes node)) }
    {
        quotient(number, self.weight)
    }
}
