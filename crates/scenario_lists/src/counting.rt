ghost use Rattle.std.specs.Prelude.{◌≡◌, ◌+◌, ◌*◌, ◌≤◌, min};
ghost use Rattle.std.specs.Result.{OkIff};
ghost use Rattle.stoch_lines.specs.Faults.{max_scenarios};
ghost use Rattle.scenario_lists.specs.Combinations.{combinations};
ghost use Rattle.scenario_lists.specs.ScenarioList.{count_of};

use crate::choices::realisations_at;
use smps_stoch::{Element, Stoch};
use std::cmp;
use wide_num::List;

/// How many scenarios there are at most.
pub const MAX_SCENARIOS: usize = 4096;

// The product, up to one above the limit, of a number that isn't above that.
fn limited_product(a: usize, b: usize) -> usize
    requires { a ≤ max_scenarios + 1 }
    ensures { result ≡ min (a * b) (max_scenarios + 1) }
{
    cmp::min(a.saturating_mul(b), MAX_SCENARIOS + 1)
}

// How many combinations there are, up to one above the limit.
fn combinations(elements: &List<Element>) -> usize
    ensures { result ≡ min (combinations elements.now) (max_scenarios + 1) }
{
    let mut count = 1;
    for k in 0..elements.len() {
        count = limited_product(count, realisations_at(elements, k).len());
    }
    count
}

/// More scenarios than there may be.
#[derive(Clone, Copy, Debug, Drop, PartialEq, Eq)]
pub struct TooMany;

/// How many scenarios there are: of elements their combinations, 1 where there is
/// none, and of a list of scenarios its length, 0 where it is empty. `TooMany`
/// comes exactly above the limit. It takes no memory.
pub fn scenario_count(stoch: &Stoch) -> Result<usize, TooMany>
    ensures { OkIff result (count_of stoch.now ≤ max_scenarios) (count_of stoch.now) }
{
    let count = match stoch {
        Stoch::Product(elements) => combinations(elements),
        Stoch::Scenarios(branches) => branches.len(),
    };
    if count > MAX_SCENARIOS {
        return Err(TooMany);
    }
    Ok(count)
}
