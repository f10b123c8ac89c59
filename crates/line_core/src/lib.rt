//! The lines of a file and their fields, and names numbered in the order in
//! which they came.
#![tactic(auto)]

mod field_list;
mod field_runs;
mod line_list;
mod name_list;
mod text_kinds;

pub use field_list::Span;
pub use field_runs::fields_are_runs;
pub use line_list::{Line, LineFault, lines};
pub use name_list::{NameFault, Names};

#[cfg(test)]
mod tests;
