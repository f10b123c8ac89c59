//! A Lagrangian spoke: it reads the hub's puts through its seat, and replies to
//! each that it reads with the dual value of its multipliers.
#![tactic(auto)]

mod finishing;
mod laws;
mod reading;
mod spoke;
mod starting;
mod stepping;
mod working;
mod writing;

pub use laws::best_is_first_greatest;
pub use spoke::{Best, LagrangianSpoke, Phase};
