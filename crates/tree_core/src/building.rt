ghost use Rattle.std.specs.Prelude.{◌≡◌, ◌*◌, ◌<◌, ◌^◌, ◌++◌, length, map, IfErr, IfOk, OnOk};
ghost use Rattle.std.specs.List.{All};
ghost use Rattle.tree_core.specs.Marks.{node, tree_of};

use crate::grouping::groups_at;
use crate::tree::{Node, Tree};
use std::alloc::{AllocError, Global};
use wide_num::List;

// Appends a node of the stage for each group.
fn append(nodes: &mut List<Node>, stage: u8, groups: Vec<List<u32>>) -> Result<(), AllocError>
    ensures nodes { OnOk result (nodes.new ≡ nodes.old ++ map (node stage) groups.items) }
    ensures asked { IfErr result (λ refused. 0 < length groups.items) }
{
    for scenarios in groups {
        nodes.push(Node { stage, scenarios })?;
    }
    Ok(())
}

/// The scenario tree of these marks, of which `owners` has one for each
/// scenario and stage. Two scenarios share a node of a stage exactly where
/// their marks at the stage are equal; nodes stand by stage and then by first
/// scenario, and a node's scenarios ascend. `tree_of_marks` says so of the
/// defined tree. It takes time in proportion to stages times scenarios, and
/// memory only where there is a stage and a scenario.
pub fn build(alloc: Global, stages: u8, owners: &List<List<u32>>) -> Result<Tree, AllocError>
    requires marked { All (λ marks. length marks ≡ stages) owners.now }
    requires few { length owners.now < 2 ^ 32 }
    requires cells { stages * length owners.now < 2 ^ 32 }
    ensures tree { IfOk result (λ tree. tree ≡ tree_of stages owners.now) }
    ensures numbered { IfOk result (λ tree. length tree.nodes < 2 ^ 32) }
    ensures asked { IfErr result (λ refused. (0 < stages) × (0 < length owners.now)) }
{
    let mut nodes = List::new(alloc);
    for before in 0..stages {
        let stage = before + 1;
        let groups = groups_at(alloc, stage, owners)?;
        append(&mut nodes, stage, groups)?;
    }
    Ok(Tree { stages, nodes })
}
