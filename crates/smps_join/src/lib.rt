//! The join: a core, its periods, a stoch file and some options become a run,
//! or the first cause why there is none is told.
#![tactic(auto)]

mod anticipation;
mod cells;
mod joining;
mod making;
mod scaling;
mod weighing;

pub use join_words::JoinFault;
pub use joining::join;
pub use scaling::row_places;
