//! By what the numbers of a core and a stoch file become those of a run: boxes
//! with missing ends filled in, and the common powers of ten.
#![tactic(auto)]

mod boxes;
mod costs;
mod entries;
mod making;
mod rows;

pub use boxes::is_idle;
pub use entries::all_entries;
pub use making::frame;
