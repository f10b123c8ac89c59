//! Prices of the rows that raise the bound over given sides, by exact ascent
//! over one row's price after another.
#![tactic(auto)]

mod ascent;
mod climbing;
mod fitting;
mod improving;
mod parts;

pub use fitting::fits;
pub use improving::improve;
