//! Bounds from prices: a price for each row takes the rows into the objective,
//! whose least over the sides, column by column, no feasible point goes below.
#![tactic(auto)]

mod bounding;
mod costs;
mod law;
mod least_values;
mod reduced;
mod reducing;

pub use bounding::{bound, price_total};
pub use law::price_bound;
pub use least_values::{column_least, least_value};
pub use reduced::Reduced;
pub use reducing::{bound_from, reduce_by, total_from};
