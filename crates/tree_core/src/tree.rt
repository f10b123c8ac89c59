ghost use Rattle.std.specs.Prelude.{◌≡◌, ◌<◌, ◌==◌, ◌^◌, Some, length, IsSome};
ghost use Rattle.std.specs.List.{list_any};
ghost use Rattle.tree_core.specs.Nodes.{holds, node_number, scenarios_at};

use wide_num::List;

/// A node: its stage, counted from 1, and its scenarios, in ascending order.
#[derive(Debug, Drop)]
pub struct Node {
    pub stage: u8,
    pub scenarios: List<u32>,
}

/// A scenario tree: how many stages it has, and its nodes, by stage and then
/// by first scenario. Scenarios and nodes are numbered from 0.
#[derive(Debug, Drop)]
pub struct Tree {
    pub stages: u8,
    pub nodes: List<Node>,
}

// Whether the scenario stands in the node, and the node at the stage.
fn holds(node: &Node, scenario: u32, stage: u8) -> bool
    ensures { result ≡ holds scenario stage node.now }
{
    node.stage == stage && has(node.scenarios.as_slice(), scenario)
}

// Whether the scenario is one of these.
fn has(scenarios: &[u32], scenario: u32) -> bool
    ensures { result ≡ list_any (λ u. u == scenario) scenarios.now }
{
    scenarios.contains(&scenario)
}

impl Tree {
    /// The number of the node at the stage that has the scenario, if there is one.
    pub(crate) fn find_node(&self, scenario: u32, stage: u8) -> Option<usize>
        ensures { result ≡ node_number self.now.nodes scenario stage }
    {
        let nodes = self.nodes.as_slice();
        for i in 0..nodes.len() {
            if holds(&nodes[i], scenario, stage) {
                return Some(i);
            }
        }
        None
    }

    /// The number of the node at the stage that has the scenario. There is one,
    /// and fewer than 2^32 nodes in all. It takes no memory.
    pub fn node_of(&self, scenario: u32, stage: u8) -> u32
        requires there { IsSome (node_number self.now.nodes scenario stage) }
        requires few { length self.now.nodes < 2 ^ 32 }
        ensures { Some result ≡ node_number self.now.nodes scenario stage }
    {
        match self.find_node(scenario, stage) {
            Some(node) => node as u32,
            None => unreachable!(),
        }
    }

    /// The scenarios of a node that is there, in ascending order where the tree
    /// is one that `build` made. It takes no memory.
    pub fn scenarios(&self, node: u32) -> &List<u32>
        requires { node < length self.now.nodes }
        ensures { result.now ≡ scenarios_at self.now.nodes node }
    {
        &self.nodes.as_slice()[node as usize].scenarios
    }
}
