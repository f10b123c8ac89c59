ghost use Rattle.std.specs.Prelude.{◌≡◌, ◌<◌, ◌≤ℤ◌, ◌<ℤ◌, Some, None, MatchOption, length};
ghost use Rattle.branch_bound.specs.Halves.{halves, middle};
ghost use Rattle.boxed_problem.specs.Sides.{side_at};
ghost use Rattle.branch_bound.specs.HalvesAt.{halves_at};

use boxed_problem::Side;

/// The first column that isn't single.
pub fn first_wide(sides: &[Side]) -> Option<usize>
    ensures { MatchOption result (halves sides.now ≡ None)
        (λ j. (j < length sides.now) × (halves sides.now ≡ Some (halves_at sides.now j))
        × ((side_at sides.now j).lower <ℤ (side_at sides.now j).upper)) }
{
    for j in 0..sides.len() {
        if sides[j].lower < sides[j].upper {
            return Some(j);
        }
    }
    None
}

/// Half the sum of a side's ends, rounded down.
pub fn middle(side: Side) -> i64
    requires { side.lower ≤ℤ side.upper }
    ensures { result ≡ middle side }
{
    let sum = i128::from(side.lower) + i128::from(side.upper);
    sum.div_euclid(2) as i64
}
