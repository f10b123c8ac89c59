//! What a core, its periods, a stoch file and some options make: the run, or
//! why there is none. The definitions by which `smps_join` promises its answer.
#![tactic(auto)]

mod fault;
mod frame;

pub use fault::JoinFault;
pub use frame::Frame;
