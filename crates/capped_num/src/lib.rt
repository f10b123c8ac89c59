//! Sums and products of whole numbers up to a cap: a greater number counts as
//! the cap, 2^127.
#![tactic(auto)]

mod capped;

pub use capped::{CAP, capped_product, capped_sum};
