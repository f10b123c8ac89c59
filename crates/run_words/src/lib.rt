//! What the words of a command ask for: what to do with which files, and with
//! which options.
#![tactic(auto)]

mod command;
mod given;
mod numeral;
mod settings;
mod words;

pub use command::{Action, Command};
pub use words::read_words;
