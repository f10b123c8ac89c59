//! Scenario trees: which scenarios share a node at each stage.
#![tactic(auto)]

mod building;
mod grouping;
mod laws;
mod tree;

pub use building::build;
pub use laws::{nested_marks, node_is_found, tree_of_marks};
pub use tree::{Node, Tree};

#[cfg(test)]
mod tests;
