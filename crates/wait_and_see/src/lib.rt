//! The wait-and-see bound of a run: the sum of the least values of its
//! scenarios, each solved by itself.
#![tactic(auto)]

mod fault;
mod summing;

pub use fault::WaitFault;
pub use summing::wait_and_see;
