//! Candidates, values of the nonleaf columns on which the scenarios of each node
//! agree: how they are made of a put, and what the cheapest plan with them costs.
#![tactic(auto)]

mod agreeing;
mod candidate;
mod choosing;
mod fault;
mod filling;
mod fixing;
mod laws;
mod pricing;
mod summing;

pub use agreeing::agrees;
pub use candidate::Candidate;
pub use fault::PriceFault;
pub use filling::{mean, pick};
pub use laws::{candidates_cost_plans, no_point_no_price, same_values_same_price};
pub use pricing::{Priced, price};
