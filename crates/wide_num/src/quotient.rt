ghost use Rattle.std.specs.Prelude.{pos, ◌<ℤ◌};
ghost use Rattle.wide_num.specs.Quotients.{IsFloor, IsCeiling};

/// The quotient rounded down, for a divisor above 0.
pub fn floor_div(a: i128, b: i128) -> i128
    requires { pos 0 <ℤ b }
    ensures { IsFloor a b result }
{
    a.div_euclid(b)
}

/// The quotient rounded up, for a divisor above 0.
pub fn ceil_div(a: i128, b: i128) -> i128
    requires { pos 0 <ℤ b }
    ensures { IsCeiling a b result }
{
    let down = a.div_euclid(b);
    if a.rem_euclid(b) == 0 { down } else { down + 1 }
}
