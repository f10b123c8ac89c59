ghost use Rattle.std.specs.Prelude.{◌≡◌, ◌+◌, ◌*◌, min};
ghost use Rattle.capped_num.specs.Capped.{capped, cap};

use std::cmp;

/// Greater numbers count as this one, 2^127.
pub const CAP: u128 = 170_141_183_460_469_231_731_687_303_715_884_105_728;

/// The product, up to the cap.
pub fn capped_product(a: u128, b: u128) -> u128
    ensures { result ≡ capped (a * b) }
{
    match a.checked_mul(b) {
        Some(product) => cmp::min(product, CAP),
        None => CAP,
    }
}

/// The sum, up to the cap.
pub fn capped_sum(a: u128, b: u128) -> u128
    ensures { result ≡ capped (a + b) }
{
    match a.checked_add(b) {
        Some(sum) => cmp::min(sum, CAP),
        None => CAP,
    }
}
