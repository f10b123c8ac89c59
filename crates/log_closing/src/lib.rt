//! How the log of a run is closed behind its last polling: each reply that is left
//! is taken once, and the multipliers behind the last lower bound are found.
#![tactic(auto)]

mod closing;
mod events;
mod gathering;
mod marks;

pub use closing::Closing;
pub use events::{bound_from, take_event};
pub use gathering::{Found, Gathered, backing, gather};
pub use marks::{is_marked, mark};
