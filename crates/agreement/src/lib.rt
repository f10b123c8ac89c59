//! Whether the values of a put agree, so that its points are a plan.
#![tactic(auto)]

mod agreeing;
mod laws;

pub use agreeing::agrees;
pub use laws::agreed_points_are_a_plan;
