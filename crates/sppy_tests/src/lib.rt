//! Tests that cross crates: the commands of `sppy` over files and streams in
//! memory. The files that they share stand in `fixtures`.
#![tactic(auto)]

#[cfg(test)]
mod commands;
#[cfg(test)]
mod drives;
#[cfg(test)]
mod failures;
#[cfg(test)]
mod fixtures;
#[cfg(test)]
mod many;
#[cfg(test)]
mod reports;
#[cfg(test)]
mod rows;
