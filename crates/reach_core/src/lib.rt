//! How great the numbers of a run become at most, up to a cap of 2^127: worked
//! out before the run is made, so that no sum leaves its bits.
#![tactic(auto)]

mod cells;
mod greatest;
mod hedges;
mod laws;
mod magnitudes;
mod reaching;
mod rows;
mod scenario_rows;

pub use laws::numbers_within_reach;
pub use reaching::run_reach;
