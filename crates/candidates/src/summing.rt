ghost use Rattle.std.specs.Prelude.{◌≡◌, ◌+◌, ◌*◌, ◌<◌, length};
ghost use Rattle.candidates.specs.Choices.{mean_in};
ghost use Rattle.agreement.specs.Agreeing.{AreWhole};
ghost use Rattle.put_words.specs.NodeSums.{AreInside, value_at};
ghost use Rattle.sp_model.specs.Problems.{scenarios};
ghost use Rattle.tree_core.specs.Nodes.{scenarios_at};

use hedging::{node_sum, weight_over};
use put_words::quotient;
use run_calls::members;
use sp_model::Run;
use wide_num::{List, plus, times};

/// Where the value of a scenario in a nonleaf column stands.
pub fn place(run: &Run, scenario: u32, column: u32) -> usize
    requires scenario { scenario < scenarios run.now }
    requires column { column < run.now.nonleaf }
    ensures is { result ≡ scenario * run.now.nonleaf + column }
    ensures there { result < scenarios run.now * run.now.nonleaf }
{
    scenario as usize * run.nonleaf as usize + column as usize
}

/// The value of a scenario in a nonleaf column.
pub fn value(run: &Run, x: &List<i64>, scenario: u32, column: u32) -> i64
    requires whole { AreWhole run.now x.now }
    requires scenario { scenario < scenarios run.now }
    requires column { column < run.now.nonleaf }
    ensures { result ≡ value_at run.now x.now scenario column }
{
    x.as_slice()[place(run, scenario, column)]
}

/// The weighted mean of a node in a nonleaf column, to the nearest whole number
/// and up from the middle between two.
pub fn mean_over(run: &Run, x: &List<i64>, node: u32, column: u32) -> i128
    requires inside { AreInside run.now x.now }
    requires node { node < length run.now.program.tree.nodes }
    requires column { column < run.now.nonleaf }
    ensures { result
        ≡ mean_in run.now x.now (scenarios_at run.now.program.tree.nodes node) column }
{
    let weight = weight_over(run, members(run, node));
    let twice = times(2, node_sum(run, x, node, column));
    quotient(plus(twice, weight), times(2, weight))
}
