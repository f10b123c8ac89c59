//! The dual value of multipliers: the sum of what all scenarios cost at least
//! with their multipliers as prices.
#![tactic(auto)]

mod laws;
mod pricing;
mod summing;

pub use laws::points_make_duals;
pub use summing::{DualFault, dual};
