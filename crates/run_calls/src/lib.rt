//! Calls on a run: multipliers that are small enough and balanced, and the puts
//! that carry them.
#![tactic(auto)]

mod multiplying;
mod put;

pub use multiplying::{
    TooBig, Unbalanced, balanced, is_of_stage, members, most, multiplier, sized,
};
pub use put::Put;
