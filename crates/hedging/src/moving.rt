ghost use Rattle.std.specs.Prelude.{◌≡◌, ◌<◌, ◌≤◌, ◌^◌, ◌==◌, ◌-ℤ◌, ◌*ℤ◌, pos, length, unsigned_abs};
ghost use Rattle.base_words.specs.ListSums.{sum_z};
ghost use Rattle.hedging.specs.Tables.{AreSums};
ghost use Rattle.put_words.specs.Hedged.{pull};
ghost use Rattle.put_words.specs.NextMultipliers.{front_of, last_of, move_in, rise};
ghost use Rattle.put_words.specs.NodeSums.{AreInside, node_for, sum_of, value_at, weight_at, weight_of};
ghost use Rattle.sp_model.specs.Problems.{scenarios};
ghost use Rattle.tree_core.specs.Nodes.{scenarios_at};

use crate::sums::{Sums, wide_value};
use run_calls::members;
use sp_model::{Run, weight};
use wide_num::{List, minus, opposite, plus, times};

// Node weight times value, less the node's sum.
fn apart(run: &Run, x: &List<i64>, sums: &Sums, node: u32, scenario: u32, column: u32) -> i128
    requires inside { AreInside run.now x.now }
    requires sums { AreSums run.now x.now node column sums.now }
    requires node { node < length run.now.program.tree.nodes }
    requires scenario { scenario < scenarios run.now }
    requires column { column < run.now.nonleaf }
    ensures { result
        ≡
        (weight_of run.now (scenarios_at run.now.program.tree.nodes node) *ℤ value_at run.now
        x.now scenario column) -ℤ sum_of run.now x.now
        (scenarios_at run.now.program.tree.nodes node) column }
{
    let whole = times(sums.weight, wide_value(run, x, scenario, column));
    minus(whole, sums.sum)
}

// Penalty times weight.
pub fn rate(run: &Run, scenario: u32) -> i128
    requires { scenario < scenarios run.now }
    ensures { result ≡ run.now.options.rho *ℤ weight_at run.now scenario }
{
    times(run.options.rho, weight(run, scenario))
}

// How far the value of a scenario lies above its node's mean, times penalty
// and weight, rounded down.
fn rise(run: &Run, x: &List<i64>, sums: &Sums, node: u32, scenario: u32, column: u32) -> i128
    requires inside { AreInside run.now x.now }
    requires sums { AreSums run.now x.now node column sums.now }
    requires node { node < length run.now.program.tree.nodes }
    requires scenario { scenario < scenarios run.now }
    requires column { column < run.now.nonleaf }
    ensures { result
        ≡ rise run.now x.now (scenarios_at run.now.program.tree.nodes node) column scenario }
{
    let product = times(
        rate(run, scenario),
        apart(run, x, sums, node, scenario, column),
    );
    sums.share(run, x, node, column, product)
}

// The sum of the rises of all scenarios of a node but the last.
fn front_rises(run: &Run, x: &List<i64>, sums: &Sums, node: u32, column: u32) -> i128
    requires inside { AreInside run.now x.now }
    requires sums { AreSums run.now x.now node column sums.now }
    requires node { node < length run.now.program.tree.nodes }
    requires column { column < run.now.nonleaf }
    ensures { result
        ≡ sum_z (rise run.now x.now (scenarios_at run.now.program.tree.nodes node) column)
        (front_of (scenarios_at run.now.program.tree.nodes node)) }
{
    let members = members(run, node);
    let mut sum = 0i128;
    for i in 0..members.len() - 1 {
        sum = plus(sum, rise(run, x, sums, node, members[i], column));
    }
    sum
}

// Whether a scenario is the last one of a node.
fn is_last(run: &Run, node: u32, scenario: u32) -> bool
    requires { node < length run.now.program.tree.nodes }
    ensures { result ≡ (scenario == last_of (scenarios_at run.now.program.tree.nodes node)) }
{
    let members = members(run, node);
    scenario == members[members.len() - 1]
}

// The move of a scenario in its node.
pub fn move_in(run: &Run, x: &List<i64>, sums: &Sums, node: u32, scenario: u32, column: u32) -> i128
    requires inside { AreInside run.now x.now }
    requires sums { AreSums run.now x.now node column sums.now }
    requires node { node < length run.now.program.tree.nodes }
    requires scenario { scenario < scenarios run.now }
    requires column { column < run.now.nonleaf }
    ensures { result
        ≡ move_in run.now x.now (scenarios_at run.now.program.tree.nodes node) column scenario }
{
    if is_last(run, node, scenario) {
        opposite(front_rises(run, x, sums, node, column))
    } else {
        rise(run, x, sums, node, scenario, column)
    }
}

// Twice a number of small magnitude.
pub fn twice(a: i128) -> i128
    requires { unsigned_abs a ≤ 2 ^ 123 }
    ensures { result ≡ pos 2 *ℤ a }
{
    2 * a
}

// Twice penalty times weight times the mean of a scenario's node, rounded down.
pub fn pull(run: &Run, x: &List<i64>, sums: &Sums, node: u32, scenario: u32, column: u32) -> i128
    requires inside { AreInside run.now x.now }
    requires sums { AreSums run.now x.now node column sums.now }
    requires node { node < length run.now.program.tree.nodes }
    requires is { node ≡ node_for run.now scenario column }
    requires scenario { scenario < scenarios run.now }
    requires column { column < run.now.nonleaf }
    ensures { result ≡ pull run.now x.now scenario column }
{
    let product = times(twice(rate(run, scenario)), sums.sum);
    sums.share(run, x, node, column, product)
}
