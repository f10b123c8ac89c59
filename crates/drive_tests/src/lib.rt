//! Tests of runs by schedules over the three readers and the join.
#![tactic(auto)]

#[cfg(test)]
mod driving;
#[cfg(test)]
mod joined_runs;
#[cfg(test)]
mod rows;
