//! The words of a multiplier with a value, and of a reply: one spelling for one
//! value.
#![tactic(auto)]

mod cells;
mod halves;
mod replies;
#[cfg(test)]
mod tests;

pub use cells::{Cell, cell_word, decode_cell};
pub use halves::NotCanonical;
pub use replies::{decode_reply, reply_word};
