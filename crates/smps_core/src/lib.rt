//! The data of a core file: rows, columns and entries, looked up in what the
//! lines of the file say.
#![tactic(auto)]

mod columns;
mod entries;
mod joining;
mod laws;
mod reading;
mod rows;
mod sides;

pub use core_lines::{CoreFault, CoreKind, first_fault_law};
pub use laws::{box_lines_law, cells_law, entries_law, names_law};
pub use reading::read_core;
pub use smps_words::{Core, CoreColumn, CoreEntry, CoreRow, RowKind};
