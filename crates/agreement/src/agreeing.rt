ghost use Rattle.std.specs.Prelude.{◌≡◌, ◌↔◌, ◌<◌, length, IsTrue};
ghost use Rattle.std.specs.List.{All};
ghost use Rattle.agreement.specs.Agreeing.{AreAgreed, AreOne, AreOneBelow, AreWhole, IsOneIn};
ghost use Rattle.put_words.specs.NodeSums.{value_at};
ghost use Rattle.run_calls.specs.MultiplierTests.{AreMembers, is_of_stage, node_at};
ghost use Rattle.sp_model.specs.Problems.{scenarios};
ghost use Rattle.tree_core.specs.Nodes.{scenarios_at};

use run_calls::{is_of_stage, members};
use sp_model::Run;
use wide_num::List;

// The value of a scenario in a nonleaf column.
fn value(run: &Run, x: &List<i64>, scenario: u32, column: u32) -> i64
    requires long { AreWhole run.now x.now }
    requires scenario { scenario < scenarios run.now }
    requires column { column < run.now.nonleaf }
    ensures { result ≡ value_at run.now x.now scenario column }
{
    x.as_slice()[scenario as usize * run.nonleaf as usize + column as usize]
}

// Whether two scenarios have the same value in a column.
fn have_same(run: &Run, x: &List<i64>, scenario: u32, other: u32, column: u32) -> bool
    requires long { AreWhole run.now x.now }
    requires scenario { scenario < scenarios run.now }
    requires other { other < scenarios run.now }
    requires column { column < run.now.nonleaf }
    ensures { IsTrue result
        ↔ (value_at run.now x.now scenario column ≡ value_at run.now x.now other column) }
{
    value(run, x, scenario, column) == value(run, x, other, column)
}

// Whether some scenarios have the value of another one in a column.
fn all_have(run: &Run, x: &List<i64>, items: &[u32], other: u32, column: u32) -> bool
    requires long { AreWhole run.now x.now }
    requires items { AreMembers run.now items.now }
    requires other { other < scenarios run.now }
    requires column { column < run.now.nonleaf }
    ensures { IsTrue result
        ↔ All (λ s. value_at run.now x.now s column ≡ value_at run.now x.now other column)
        items.now }
{
    for scenario in items {
        if !have_same(run, x, *scenario, other, column) {
            return false;
        }
    }
    true
}

// Whether the scenarios of a node have one value in a column.
fn are_one(run: &Run, x: &List<i64>, node: u32, column: u32) -> bool
    requires long { AreWhole run.now x.now }
    requires node { node < length run.now.program.tree.nodes }
    requires column { column < run.now.nonleaf }
    ensures { IsTrue result ↔ AreOne run.now x.now node column }
{
    let items = members(run, node);
    all_have(run, x, items, items[0], column)
}

// The same, where the column is of the node's stage.
fn is_one_in(run: &Run, x: &List<i64>, node: u32, column: u32) -> bool
    requires long { AreWhole run.now x.now }
    requires node { node < length run.now.program.tree.nodes }
    requires column { column < run.now.nonleaf }
    ensures { IsTrue result ↔ IsOneIn run.now x.now node column }
{
    if !is_of_stage(run, node, column) {
        return true;
    }
    are_one(run, x, node, column)
}

// Whether they have in each column of the node's stage.
fn is_one(run: &Run, x: &List<i64>, node: u32) -> bool
    requires long { AreWhole run.now x.now }
    requires node { node < length run.now.program.tree.nodes }
    ensures { IsTrue result ↔ AreOneBelow run.now x.now node run.now.nonleaf }
{
    for column in 0..run.nonleaf {
        if !is_one_in(run, x, node, column) {
            return false;
        }
    }
    true
}

/// Whether values agree: whether scenarios that share a node have the same ones
/// in the columns of the node's stage. The values stand scenario after scenario;
/// they needn't lie in the boxes of their columns.
pub fn agrees(run: &Run, x: &List<i64>) -> bool
    requires { AreWhole run.now x.now }
    ensures { IsTrue result ↔ AreAgreed run.now x.now }
{
    for node in 0..run.program.tree.nodes.len() as u32 {
        if !is_one(run, x, node) {
            return false;
        }
    }
    true
}
