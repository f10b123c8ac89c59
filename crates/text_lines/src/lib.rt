//! The lines of the texts that the commands write of a run: the heading, a
//! lower bound, and all that `show` tells of columns, rows and scenarios.
#![tactic(auto)]

mod bound;
mod columns;
mod heading;
mod limits;
mod numbers;
mod scenarios;
mod writing;

pub use bound::bound_lines;
pub use columns::{column_lines, row_lines};
pub use heading::heading_lines;
pub use numbers::unit;
pub use scenarios::scenario_lines;
pub use writing::{end_line, fixed_line, put_count};
