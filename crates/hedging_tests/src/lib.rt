//! Tests of the calls on puts over the three readers and the join.
#![tactic(auto)]

#[cfg(test)]
mod empty_stages;
#[cfg(test)]
mod joined_runs;
#[cfg(test)]
mod multiplying;
#[cfg(test)]
mod plans;
#[cfg(test)]
mod putting;
#[cfg(test)]
mod refusing;
#[cfg(test)]
mod skipping;
#[cfg(test)]
mod texts;
