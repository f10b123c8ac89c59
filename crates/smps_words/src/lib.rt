//! What the readers of the three SMPS files share: the data types of the core
//! and of the periods with the facts that they keep, lines of text, and the
//! words by which a file means what its lines say one after another.
#![tactic(auto)]

mod core_data;
mod core_file;
mod file_line;
mod laws;
mod periods;
#[cfg(test)]
mod tests;

pub use core_data::{CoreColumn, CoreEntry, CoreRow, RowKind};
pub use core_file::Core;
pub use file_line::{FileLine, last_number};
pub use laws::{stage_in_is_last, stage_is_one};
pub use periods::Periods;
