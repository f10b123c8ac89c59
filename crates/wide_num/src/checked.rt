ghost use Rattle.std.specs.Prelude.{◌+ℤ◌, ◌*ℤ◌, FitsSigned};
ghost use Rattle.std.specs.Int.{w128};
ghost use Rattle.std.specs.Result.{OkIff};

/// An exact result lies outside `i128`.
#[derive(Clone, Copy, Debug, Drop, PartialEq, Eq)]
pub struct Wide;

/// The exact sum. `Wide` comes exactly where it lies outside `i128`.
pub fn add(a: i128, b: i128) -> Result<i128, Wide>
    ensures { OkIff result (FitsSigned w128 (a +ℤ b)) (a +ℤ b) }
{
    a.checked_add(b).ok_or(Wide)
}

/// The exact product. `Wide` comes exactly where it lies outside `i128`.
pub fn mul(a: i128, b: i128) -> Result<i128, Wide>
    ensures { OkIff result (FitsSigned w128 (a *ℤ b)) (a *ℤ b) }
{
    a.checked_mul(b).ok_or(Wide)
}
