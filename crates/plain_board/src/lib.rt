//! A board on one thread: plain words, and the views of all seats as values.
#![tactic(auto)]

mod fresh;
mod plain;
mod seat;
mod track;

pub use plain::PlainBoard;
