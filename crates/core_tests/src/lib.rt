//! Tests of the core reader over whole texts: all data, the first faults of each
//! kind, and what two files tell when they are cut after each byte.
#![tactic(auto)]

#[cfg(test)]
mod core_files;
