//! Plans of a run: whether points of the scenarios are a plan, the first place
//! where they aren't, and what a plan costs. No call takes memory.
#![tactic(auto)]

mod activities;
mod costs;
mod failure;
mod laws;
mod testing;
mod values;

pub use costs::cost;
pub use failure::NoPlan;
pub use laws::multipliers_are_decided;
pub use testing::is_plan;
