//! The pair of bounds that a run has reached: the greatest lower bound and the least
//! upper one so far.
#![tactic(auto)]

mod laws;
mod ledger;
#[cfg(test)]
mod tests;

pub use laws::pair_law;
pub use ledger::{Bound, Ledger, Pair};
