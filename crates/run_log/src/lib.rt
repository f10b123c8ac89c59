//! The log of a run: its puts, the replies that the hub took with the pair of bounds
//! behind each, its end, and what the spokes answered; and what log a run may have.
#![tactic(auto)]

mod laws;
mod log;

pub use laws::{runs_enclose, spokes_leave_logs};
pub use log::{End, Event, Log, Source, Upper};
