//! Whole numbers in 128 bits, fractions in lowest terms, and lists that
//! contracts see as lists.
#![tactic(auto)]

mod checked;
mod exact;
mod fraction;
mod items;
mod lowest;
mod quotient;
mod reserved;
mod signs;
mod texts;

pub use checked::{Wide, add, mul};
pub use exact::{minus, opposite, plus, times};
pub use fraction::Fraction;
pub use items::{List, Text};
pub use lowest::reduce;
pub use quotient::{ceil_div, floor_div};
pub use reserved::Room;
pub use signs::signed;
pub use texts::same;

#[cfg(test)]
mod tests;
