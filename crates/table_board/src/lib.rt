//! A board for threads: windows of atomic words in one table, with no lock.
#![tactic(auto)]

mod rule;
mod seat;
mod table;

pub use seat::TableSeat;
pub use table::TableBoard;
