//! What a run's spokes answer: the types of their logs, and the value of each
//! reply.
#![tactic(auto)]

mod log;
mod step;

pub use log::{Answer, Backing, SpokeEnd, SpokeKind, SpokeLog};
pub use step::SpokeStep;
