//! The hub of a run: it makes the puts, takes replies in polls, decides when the
//! run ends, and closes its log.
#![tactic(auto)]

mod deciding;
mod ending;
mod hub;
mod polling;
mod starting;

pub use deciding::Decision;
pub use hub::Hub;
