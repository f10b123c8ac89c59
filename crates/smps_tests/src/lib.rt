//! Tests that cross the readers: a core file, a time file and a stoch file read
//! one after another.
#![tactic(auto)]

#[cfg(test)]
mod problems;
#[cfg(test)]
mod stoch_files;
