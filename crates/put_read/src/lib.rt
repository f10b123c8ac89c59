//! Readers of a run's windows: the words that were read become the put that they
//! are of, or a spoke's reply.
#![tactic(auto)]

mod filling;
mod reader;
mod spokes;
mod windows;

pub use reader::PutReader;
pub use spokes::{ReplyRead, SpokeReader};
