ghost use Rattle.std.specs.Prelude.{◌≡◌, neg_ℤ, ◌+ℤ◌, ◌-ℤ◌, ◌*ℤ◌, FitsSigned};
ghost use Rattle.std.specs.Int.{w128};

/// A product that fits.
pub fn times(a: i128, b: i128) -> i128
    requires { FitsSigned w128 (a *ℤ b) }
    ensures { result ≡ a *ℤ b }
{
    a * b
}

/// A sum that fits.
pub fn plus(a: i128, b: i128) -> i128
    requires { FitsSigned w128 (a +ℤ b) }
    ensures { result ≡ a +ℤ b }
{
    a + b
}

/// A difference that fits.
pub fn minus(a: i128, b: i128) -> i128
    requires { FitsSigned w128 (a -ℤ b) }
    ensures { result ≡ a -ℤ b }
{
    a - b
}

/// A number with the other sign, where that fits.
pub fn opposite(a: i128) -> i128
    requires { FitsSigned w128 (neg_ℤ a) }
    ensures { result ≡ neg_ℤ a }
{
    -a
}
