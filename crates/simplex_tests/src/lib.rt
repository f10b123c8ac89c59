//! Tests of the prices that the dual simplex suggests: their exact bounds beside the
//! least values without wholeness that other solvers find, and a kept basis beside a
//! new one.
#![tactic(auto)]

#[cfg(test)]
mod bounding;
#[cfg(test)]
mod keeping;
#[cfg(test)]
mod pricing;
#[cfg(test)]
mod problems;
