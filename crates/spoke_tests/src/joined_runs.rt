//! The run of three texts.

ghost use Rattle.std.specs.Prelude.{pos, ◌≤ℤ◌};
ghost use Rattle.sp_model.specs.RunFacts.{OptionFacts};

use smps_core::read_core;
use smps_join::join;
use smps_stoch::read_stoch;
use smps_time::read_time;
use sp_model::{MAX_BUDGET, MAX_ITERATIONS, MAX_RANKS, MAX_RHO, MAX_SCALE, Options, Run};
use std::alloc::Global;

// The number, or the nearest one from 1 to `most`.
fn from_one(number: i128, most: i128) -> i128
    requires { pos 1 ≤ℤ most }
    ensures least { pos 1 ≤ℤ result }
    ensures most { result ≤ℤ most }
{
    if number < 1 {
        1
    } else if most < number {
        most
    } else {
        number
    }
}

/// Options with a scale, a penalty, numbers of ranks and of further puts and a budget
/// of boxes, each cut to its range, and three Lagrangian spokes.
pub fn options(scale: i128, rho: i128, ranks: usize, iterations: u64, budget: u64) -> Options
    ensures { OptionFacts result }
{
    Options {
        scale: from_one(scale, MAX_SCALE),
        rho: from_one(rho, MAX_RHO),
        iterations: iterations.min(MAX_ITERATIONS),
        ranks: ranks.max(1).min(MAX_RANKS),
        lagrangian: 3,
        xhat: 0,
        candidates: 1,
        mean: false,
        gap: 0,
        budget: budget.max(1).min(MAX_BUDGET),
        missing: 1000000,
    }
}

/// The run of three texts; none where a file has a fault or the join refuses.
pub fn joined(alloc: Global, texts: (&str, &str, &str), options: &Options) -> Option<Run>
    requires { OptionFacts options.now }
{
    let Ok(core) = read_core(alloc, texts.0.as_bytes()) else {
        return None;
    };
    let Ok(periods) = read_time(alloc, texts.1.as_bytes(), &core) else {
        return None;
    };
    let Ok(stoch) = read_stoch(alloc, texts.2.as_bytes(), &core, &periods) else {
        return None;
    };
    if core.columns.len() == 0 {
        return None;
    }
    match join(alloc, &core, &periods, &stoch, options) {
        Ok(run) => Some(run),
        Err(_) => None,
    }
}
