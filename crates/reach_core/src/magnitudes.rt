ghost use Rattle.std.specs.Prelude.{◌≡◌, ◌<◌, ◌≤◌, ◌^◌, length, max, unsigned_abs};
ghost use Rattle.base_words.specs.Signs.{limit_size};
ghost use Rattle.boxed_problem.specs.BoxedFacts.{limits_size};
ghost use Rattle.sp_model.specs.Reaching.{box_reach};

use boxed_problem::Limits;
use sp_model::Program;
use std::cmp;

/// The magnitude of a number.
pub fn size(number: i128) -> u128
    ensures size { result ≡ unsigned_abs number }
    ensures small { result ≤ 2 ^ 127 }
{
    number.unsigned_abs()
}

/// The greater one of two numbers.
pub fn larger(a: u128, b: u128) -> u128
    ensures { result ≡ max a b }
{
    cmp::max(a, b)
}

/// The greater magnitude of a column's box ends.
pub fn box_reach(program: &Program, j: usize) -> u128
    requires { j < length program.now.columns }
    ensures { result ≡ box_reach program.now j }
{
    let column = program.columns.as_slice()[j];
    cmp::max(
        u128::from(column.lower.unsigned_abs()),
        u128::from(column.upper.unsigned_abs()),
    )
}

// The magnitude of a limit, 0 where there is none.
fn limit_size(limit: Option<i128>) -> u128
    ensures size { result ≡ limit_size limit }
    ensures small { result ≤ 2 ^ 127 }
{
    match limit {
        Some(limit) => size(limit),
        None => 0,
    }
}

/// The greater magnitude of a row's limits.
pub fn limits_size(limits: &Limits) -> u128
    ensures size { result ≡ limits_size limits.now }
    ensures small { result ≤ 2 ^ 127 }
{
    cmp::max(limit_size(limits.lower), limit_size(limits.upper))
}
