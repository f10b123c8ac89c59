//! The reader of schedule files: whose turn it is, word by word, and for how
//! many steps.
#![tactic(auto)]

mod numeral;
mod reading;
mod schedule;
mod schedule_fault;
mod schedule_file;
mod turn_word;

pub use schedule::{Actor, Schedule, Turn};
pub use schedule_fault::{ScheduleFault, ScheduleKind};
pub use schedule_file::{first_fault_is_first, read_schedule};

#[cfg(test)]
mod tests;
