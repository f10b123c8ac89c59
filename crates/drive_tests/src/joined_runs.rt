//! The run of three texts.

ghost use Rattle.std.specs.Prelude.{◌≡◌};
ghost use Rattle.sp_model.specs.RunFacts.{OptionFacts};

use smps_core::read_core;
use smps_join::join;
use smps_stoch::read_stoch;
use smps_time::read_time;
use sp_model::{MAX_BUDGET, MAX_ITERATIONS, MAX_RANKS, MAX_SPOKES, Options, Run};
use std::alloc::Global;

/// Options with numbers of ranks, of Lagrangian spokes and of further puts and a budget, each
/// cut to its range.
pub fn options(ranks: usize, spokes: usize, iterations: u64, budget: u64) -> Options
    ensures fit { OptionFacts result }
    ensures alone { result.xhat ≡ 0 }
{
    Options {
        scale: 2,
        rho: 1,
        iterations: iterations.min(MAX_ITERATIONS),
        ranks: ranks.max(1).min(MAX_RANKS),
        lagrangian: spokes.min(MAX_SPOKES),
        xhat: 0,
        candidates: 1,
        mean: false,
        gap: 0,
        budget: budget.max(1).min(MAX_BUDGET),
        missing: 1000000,
    }
}

/// The run of three texts; none where a file has a fault or the join refuses.
pub fn joined(alloc: Global, texts: (&str, &str, &str), options: &Options) -> Option<Run>
    requires { OptionFacts options.now }
{
    let Ok(core) = read_core(alloc, texts.0.as_bytes()) else {
        return None;
    };
    let Ok(periods) = read_time(alloc, texts.1.as_bytes(), &core) else {
        return None;
    };
    let Ok(stoch) = read_stoch(alloc, texts.2.as_bytes(), &core, &periods) else {
        return None;
    };
    if core.columns.len() == 0 {
        return None;
    }
    match join(alloc, &core, &periods, &stoch, options) {
        Ok(run) => Some(run),
        Err(_) => None,
    }
}
