//! Tests of the words of puts, of their reader and of a Lagrangian spoke, over
//! runs that are read and joined.
#![tactic(auto)]

mod bench;
#[cfg(test)]
mod joined_runs;
#[cfg(test)]
mod making;
mod placing;
#[cfg(test)]
mod spelling;
#[cfg(test)]
mod spokes;
#[cfg(test)]
mod texts;
mod turns;
