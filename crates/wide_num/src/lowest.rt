ghost use Rattle.std.specs.Prelude.{◌≡◌, ℕ, pos, neg_ℤ, ◌*◌, ◌^◌, ◌<◌, ◌<ℤ◌, ◌*ℤ◌, unsigned_abs};
ghost use Rattle.std.specs.Int.{IsGcd, ◌∣◌};
ghost use Rattle.wide_num.specs.LowestTerms.{IsLowest};

use crate::fraction::Fraction;
use crate::signs::signed;

/// The quotient `top / bottom` in lowest terms, for a bottom above 0. The top
/// is above `i128::MIN`. 0 is given as 0/1.
pub fn reduce(top: i128, bottom: i128) -> Fraction
    requires above { pos 0 <ℤ bottom }
    requires fits { neg_ℤ (pos (2 ^ 127)) <ℤ top }
    ensures lowest { IsLowest top bottom result }
    ensures value { top *ℤ result.bottom ≡ result.top *ℤ bottom }
    ensures only { (f : Fraction) → IsLowest top bottom f → f ≡ result }
{
    let over = top.unsigned_abs();
    let under = bottom.unsigned_abs();
    let common = common_divisor(over, under);
    Fraction {
        top: signed(top < 0, exact_quotient(over, common)),
        bottom: signed(false, exact_quotient(under, common)),
    }
}

// The greatest common divisor, by Euclid's remainders.
fn gcd(a: u128, b: u128) -> u128
    ensures { IsGcd a b result }
{
    let mut x = a;
    let mut y = b;
    while y != 0 {
        let rest = x % y;
        x = y;
        y = rest;
    }
    x
}

// The greatest common divisor, which is above 0 where the second number is.
#[tactic(auto, using(crate::proofs::LowestLemmas::gcd_positive))]
fn common_divisor(a: u128, b: u128) -> u128
    requires { 0 < b }
    ensures greatest { IsGcd a b result }
    ensures above { 0 < result }
{
    gcd(a, b)
}

// The quotient by a number that leaves no remainder.
fn exact_quotient(number: u128, divisor: u128) -> u128
    requires above { 0 < divisor }
    requires exact { divisor ∣ number }
    ensures { number ≡ result * divisor }
{
    number / divisor
}
