//! The worked run.

use sample_files::{SMALL_CORE, SMALL_STOCH, SMALL_TIME};
use smps_core::read_core;
use smps_join::join;
use smps_stoch::read_stoch;
use smps_time::read_time;
use sp_model::{MAX_ITERATIONS, MAX_RANKS, Options, Run};
use std::alloc::Global;

/// The run of SMALL with scale 2, penalty 1, three Lagrangian spokes, and so many ranks
/// and further puts; none where it can't be joined.
pub fn small_run(alloc: Global, ranks: usize, iterations: u64) -> Option<Run> {
    let Ok(core) = read_core(alloc, SMALL_CORE.as_bytes()) else {
        return None;
    };
    let Ok(periods) = read_time(alloc, SMALL_TIME.as_bytes(), &core) else {
        return None;
    };
    let Ok(stoch) = read_stoch(alloc, SMALL_STOCH.as_bytes(), &core, &periods) else {
        return None;
    };
    if core.columns.len() == 0 {
        return None;
    }
    let options = Options {
        scale: 2,
        rho: 1,
        iterations: iterations.min(MAX_ITERATIONS),
        ranks: ranks.max(1).min(MAX_RANKS),
        lagrangian: 3,
        xhat: 0,
        candidates: 1,
        mean: false,
        gap: 0,
        budget: 1000000,
        missing: 1000000,
    };
    join(alloc, &core, &periods, &stoch, &options).ok()
}
