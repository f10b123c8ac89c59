//! Tests of the text of a run over the three readers and the join.
#![tactic(auto)]

#[cfg(test)]
mod joined_runs;
#[cfg(test)]
mod sample_logs;
#[cfg(test)]
mod telling;
