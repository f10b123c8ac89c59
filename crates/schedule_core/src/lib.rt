//! A run by a schedule: the hub, its ranks and its spokes make one call on the windows in each
//! step, in the order that the schedule gives, and in rounds behind it.
#![tactic(auto)]

mod driver;
mod driving;
mod hub_steps;
mod opening;
mod rank_steps;
mod spoke_steps;
mod turns;

pub use driver::Driver;
pub use driving::drive;
pub use hedging::FirstFault;
