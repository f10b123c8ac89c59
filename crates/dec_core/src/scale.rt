ghost use Rattle.std.specs.Prelude.{◌≡◌, ◌-◌, ◌^◌, ◌≤◌, All, FitsSigned};
ghost use Rattle.std.specs.Int.{w128};
ghost use Rattle.std.specs.Result.{OkIff};
ghost use Rattle.dec_core.specs.Scale.{common_places, IsReached, scaled_to};

use crate::decimal::Decimal;
use wide_num::{List, Wide, mul};

/// The greatest number of places among the items, 0 where there is none.
pub fn common(items: &List<Decimal>) -> u8
    ensures value { result ≡ common_places items.now }
    ensures above { All (λ item. item.places ≤ result) items.now }
    ensures reached { IsReached items.now result }
{
    items
        .as_slice()
        .iter()
        .map(|item| item.places)
        .max()
        .unwrap_or(0)
}

fn power_of_ten(exponent: u8) -> u64
    requires { exponent ≤ 9 }
    ensures { result ≡ 10 ^ exponent }
{
    10u64.pow(u32::from(exponent))
}

/// The number times `10^places`, which is whole. `Wide` comes exactly where it
/// lies outside `i128`.
pub fn scaled(value: Decimal, places: u8) -> Result<i128, Wide>
    requires enough { value.places ≤ places }
    requires most { places ≤ 9 }
    ensures { OkIff result (FitsSigned w128 (scaled_to value places)) (scaled_to value places) }
{
    mul(
        value.mantissa,
        i128::from(power_of_ten(places - value.places)),
    )
}
