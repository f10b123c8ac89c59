//! The exact search: the least value of a problem over a box, and the first
//! point that has it.
#![tactic(auto)]

mod bettering;
mod curving;
mod fault;
mod first_values;
mod frames;
mod gridding;
mod halving;
mod narrowing;
mod pacing;
mod plain_law;
mod pricing;
mod pruning;
mod scaling;
mod searching;
mod stepping;
mod suggesting;

pub use fault::SolveFault;
pub use plain_law::{plain_counts_of_small, plain_search_is_unbounded};
pub use searching::{solve, solve_from};
