//! Tests of the time reader over whole texts, read beside a core file: periods,
//! first faults, cuts after each byte, and the stages of columns and rows.
#![tactic(auto)]

#[cfg(test)]
mod time_files;
