//! Problems over a box of whole numbers: columns with ends, rows with limits,
//! and an objective that adds a linear and a square part for each column.
#![tactic(auto)]

mod building;
mod counting;
mod feasibility;
mod fixing;
mod magnitude;
mod objective;
mod odometer;
mod parts;
mod price_fit;
mod problem;
mod scanning;

pub use feasibility::{is_at_least, is_at_most, is_met, product, row_activity};
pub use magnitude::limits_reach;
pub use objective::column_value;
pub use odometer::first_point;
pub use parts::{Best, Entry, Limits, Prices, Side};
pub use price_fit::{MAX_PRICE_SIZE, has_sign};
pub use problem::Boxed;
pub use scanning::{is_better, scan};
