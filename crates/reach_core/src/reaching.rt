ghost use Rattle.std.specs.Prelude.{◌≡◌, ◌+◌, ◌*◌, ◌≤◌, IfOk, length, unsigned_abs, slice_index};
ghost use Rattle.std.specs.List.{All};
ghost use Rattle.base_words.specs.Sums.{size_below};
ghost use Rattle.capped_num.specs.Capped.{capped};
ghost use Rattle.sp_model.specs.Changes.{all_data};
ghost use Rattle.sp_model.specs.RunFacts.{IsScenario};
ghost use Rattle.sp_model.specs.Reaching.{box_reach, hedge_reach, line_reach, run_reach};
ghost use Rattle.reach_core.specs.Greatest.{tops_of};
ghost use Rattle.reach_core.specs.Places.{AreOrdered, AreThere};

use crate::greatest::of_all;
use crate::hedges::{hedge_reach, raw_reach};
use crate::magnitudes::{box_reach, size};
use capped_num::{capped_product, capped_sum};
use sp_model::{Options, Program};
use std::alloc::{AllocError, Global};

// The sum of the columns' greatest costs, each times its box.
fn cost_sum(program: &Program, tops: &[u128]) -> u128
    requires { length tops.now ≡ length program.now.columns }
    ensures { result
        ≡ capped
        (size_below (length program.now.columns)
        (λ j. slice_index tops.now j * box_reach program.now j)) }
{
    let mut sum = 0;
    for j in 0..tops.len() {
        sum = capped_sum(sum, capped_product(tops[j], box_reach(program, j)));
    }
    sum
}

// The magnitude of the costs of all scenarios.
fn line_reach(program: &Program, options: &Options, total: i128, tops: &[u128]) -> u128
    requires { tops.now ≡ tops_of (length program.now.columns) (all_data program.now) }
    ensures { result ≡ capped (line_reach program.now options.now total) }
{
    let costs = capped_sum(size(program.constant), cost_sum(program, tops));
    capped_product(capped_product(size(options.scale), size(total)), costs)
}

// Twice the hedged objectives of so many scenarios.
fn hedged(program: &Program, options: &Options, total: i128, nonleaf: u32) -> u128
    requires { nonleaf ≤ length program.now.columns }
    ensures { result
        ≡ capped
        (2 * length program.now.scenarios * hedge_reach program.now options.now total nonleaf) }
{
    capped_product(
        2 * program.scenarios.len() as u128,
        hedge_reach(program, options, total, nonleaf),
    )
}

/// No number of a run of this program becomes greater than this; 2^127 stands
/// for all numbers from there on. `total` is the sum of the weights, `nonleaf`
/// the number of columns before the leaf stage.
pub fn run_reach(
    alloc: Global,
    program: &Program,
    options: &Options,
    total: i128,
    nonleaf: u32,
) -> Result<u128, AllocError>
    requires there { AreThere program.now }
    requires ordered { AreOrdered program.now }
    requires scenarios { All (IsScenario program.now) program.now.scenarios }
    requires nonleaf { nonleaf ≤ length program.now.columns }
    ensures { IfOk result
        (λ reach. reach ≡ capped (run_reach program.now options.now total nonleaf)) }
{
    let greatest = of_all(alloc, program)?;
    let line = line_reach(program, options, total, greatest.tops.as_slice());
    let front = capped_sum(
        capped_product(2, line),
        hedged(program, options, total, nonleaf),
    );
    Ok(capped_sum(
        capped_sum(front, raw_reach(program, options, total, nonleaf)),
        greatest.rows,
    ))
}
