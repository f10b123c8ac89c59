//! The lines of a core file, each judged by the lines before it: the words,
//! what the lines of each section say, and their faults.
#![tactic(auto)]

mod bound_kinds;
mod bound_lines;
mod bound_numbers;
mod bound_values;
mod boxes;
mod cells;
mod column_lines;
mod growing;
mod headers;
mod kinds;
mod law;
mod pairs;
mod parts;
mod reading;
mod rounding;
mod row_lines;
mod set_names;
mod side_lines;
mod state;
mod steps;
mod words;

pub use bound_values::BoundValue;
pub use boxes::{lowers_of, uppers_of};
pub use cells::{Bound, Cell, EndChange, RowValue};
pub use headers::Headers;
pub use kinds::{CoreFault, CoreKind, Stop};
pub use law::first_fault_law;
pub use parts::{BoundPart, ColumnPart, RowPart, SidePart};
pub use reading::read_state;
pub use state::State;
pub use words::{BoundKind, Section};
