//! The puts of progressive hedging in whole numbers: how multipliers move, what
//! each scenario solves in between, and the laws that they stay balanced and small.
#![tactic(auto)]

mod laws;
mod objective;
mod quotients;

pub use laws::{
    no_dual_no_plan, puts_are_balanced, puts_are_made, puts_are_sized, puts_need_points,
    rounds_down, zero_prices_nothing,
};
pub use objective::{with_line, with_objective};
pub use quotients::quotient;
