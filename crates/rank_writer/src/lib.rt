//! A rank's side of the windows: it writes its part of each put word by word.
#![tactic(auto)]

mod stepping;
mod writer;

pub use writer::{RankWriter, Writing};
