//! Readers of windows: each step is one call of a board, and a reading that is
//! answered is one whole entry of each window, all of one number.
#![tactic(auto)]

mod part;
mod puts;
mod read;
mod replies;

pub use puts::StampedReader;
pub use read::{Again, Read};
pub use replies::ReplyReader;
