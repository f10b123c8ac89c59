//! Windows of words: what each window's entries are, what one seat may do with
//! them, and what it then knows.
#![tactic(auto)]

mod board;
mod meaning;
mod views;

pub use board::Board;
pub use meaning::Meaning;
pub use views::{Call, Known, Owned, Pending, Reading, View};
