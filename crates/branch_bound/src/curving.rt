ghost use Rattle.std.specs.Prelude.{◌+◌, ◌*◌, ◌^◌, ◌≤◌, ◌≤ℤ◌, ◌<ℤ◌, pos, unsigned_abs};
ghost use Rattle.boxed_problem.specs.Sides.{reach};
ghost use Rattle.branch_bound.specs.Bettering.{KeepsSlack};

use boxed_problem::Side;
use propagate::cut_above;

/// The values of a side at which a column adds at most a slack above its least;
/// all of them where it has a square part.
pub fn column_cut(line: i128, square: i128, side: Side, slack: i128) -> Side
    requires wide { side.lower <ℤ side.upper }
    requires convex { pos 0 ≤ℤ square }
    requires fits { unsigned_abs line * reach side + unsigned_abs square * (reach side * reach side)
        ≤ 2 ^ 125 }
    requires slack { pos 0 ≤ℤ slack }
    ensures { KeepsSlack line square side slack result }
{
    if square > 0 {
        side
    } else {
        cut_above(side, line, slack)
    }
}
