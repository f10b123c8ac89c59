//! The time file of a stochastic program: its periods.
#![tactic(auto)]

mod name_lookups;
mod time_fault;
mod time_file;
mod time_reading;

pub use smps_words::Periods;
pub use time_fault::{TimeFault, TimeKind};
pub use time_file::{first_fault_is_first, read_time};
