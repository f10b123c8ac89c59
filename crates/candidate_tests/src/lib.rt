//! Tests of candidates and their prices over the three readers and the join.
#![tactic(auto)]

#[cfg(test)]
mod agreeing;
#[cfg(test)]
mod choosing;
#[cfg(test)]
mod joined_runs;
#[cfg(test)]
mod pricing;
#[cfg(test)]
mod texts;
