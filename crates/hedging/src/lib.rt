//! Progressive hedging in whole numbers: the first put from the scenarios'
//! own best points, and each next one from their hedged problems.
#![tactic(auto)]

mod hedge;
mod hedged;
mod making;
mod moving;
mod solving;
mod sums;
mod tables;

pub use hedge::{FirstFault, Hedge, NextFault, first, next};
pub use sums::{node_sum, weight_over};
