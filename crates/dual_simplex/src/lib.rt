//! Prices for the rows of a problem, suggested by a bounded dual simplex in
//! fixed-point whole numbers whose basis is kept from one box to the next. Its
//! numbers are rounded, so nothing is claimed of the prices but that each has
//! the sign that its row's limits allow and is at most its cap in magnitude:
//! whoever uses them works out the bound anew.
#![tactic(auto)]

mod building;
mod capping;
mod fixed_point;
mod flipping;
mod law;
mod live_rows;
mod pieces;
mod pivoting;
mod ratio_test;
mod rebuilding;
mod simplex;
mod suggestions;
mod variables;

pub use capping::{add_times, cut};
pub use law::capped_prices_fit;
pub use ratio_test::Leaving;
pub use simplex::{Simplex, Stop};
