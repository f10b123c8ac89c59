//! Decimal numbers, read exactly from text.
#![tactic(auto)]

mod decimal;
mod exponent;
mod law;
mod parts;
mod reading;
mod scale;
mod significand;

pub use decimal::{DecFault, Decimal};
pub use law::one_value;
pub use parts::are_digits;
pub use reading::read;
pub use scale::{common, scaled};

#[cfg(test)]
mod tests;
