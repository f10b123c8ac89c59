ghost use Rattle.std.specs.Prelude.{◌≡◌, pos, ◌<ℤ◌};
ghost use Rattle.put_words.specs.NextMultipliers.{rounded_down};

/// A quotient rounded down, for a divisor above 0.
pub fn quotient(a: i128, b: i128) -> i128
    requires { pos 0 <ℤ b }
    ensures { result ≡ rounded_down a b }
{
    a.div_euclid(b)
}
