ghost use Rattle.std.specs.Prelude.{◌≡◌, ◌<ℤ◌, ◌^◌, pos, neg_ℤ, option_map, IfSome};
ghost use Rattle.run_text.specs.Bodies.{IsWorth, IsWorthIfAny};

use run_log::Upper;
use wide_num::{Fraction, reduce};

/// A bound in the unit of a run, and what it is worth in the costs of the file.
#[derive(Debug, Drop)]
pub struct Worth {
    pub bound: i128,
    /// bound / unit in lowest terms.
    pub value: Fraction,
}

/// What a bound above `i128::MIN` is worth in a unit above 0.
pub fn worth_of(bound: i128, unit: i128) -> Worth
    requires above { pos 0 <ℤ unit }
    requires fits { neg_ℤ (pos (2 ^ 127)) <ℤ bound }
    ensures { IsWorth unit bound result }
{
    Worth {
        bound,
        value: reduce(bound, unit),
    }
}

/// The same of an upper bound, where there is one.
pub fn worth_if_any(upper: &Option<Upper>, unit: i128) -> Option<Worth>
    requires above { pos 0 <ℤ unit }
    requires fits { IfSome upper.now (λ upper. neg_ℤ (pos (2 ^ 127)) <ℤ upper.value) }
    ensures { IsWorthIfAny unit (option_map (λ upper. upper.value) upper.now) result }
{
    match upper {
        Some(upper) => Some(worth_of(upper.value, unit)),
        None => None,
    }
}
