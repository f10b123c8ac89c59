//! The text of a run: its puts and takes with the pair of bounds behind each, its end,
//! what the spokes answered, and the last bounds.
#![tactic(auto)]

mod bounds;
mod events;
mod fault;
mod laws;
mod lines;
mod puts;
mod spokes;
mod whole;
mod worth;
mod writing;

pub use fault::TextFault;
pub use laws::same_text_same_pairs;
pub use whole::body;
