//! The words of a run's windows: which cells of a put each rank has, the words
//! of its part, and the meaning that ties the entries of a board to a run.
#![tactic(auto)]

mod laws;
mod layout;
mod parts;
mod run_meaning;

pub use laws::{puts_are_spelled, puts_are_there, replies_are_spelled};
pub use layout::{Layout, cells, layout_of, start};
pub use parts::part_word;
pub use run_meaning::{RunMeaning, meaning};
