ghost use Rattle.std.specs.Prelude.{◌≡◌, ◌+◌, ◌*◌, ◌^◌, ◌≤◌, ◌≤ℤ◌, ◌<ℤ◌, pos, unsigned_abs};
ghost use Rattle.boxed_problem.specs.Data.{problem_of};
ghost use Rattle.boxed_problem.specs.Sides.{Within, reach};
ghost use Rattle.safe_bound.specs.Leasts.{IsLeastAt, IsNearest, IsVertex, least_on, least_value};

use boxed_problem::{Boxed, Side, column_value};
use wide_num::List;

/// The last place to which a column with a square falls.
fn turning_place(line: i128, square: i128) -> i128
    requires square { pos 0 <ℤ square }
    requires small_line { unsigned_abs line ≤ 2 ^ 125 }
    requires small_square { unsigned_abs square ≤ 2 ^ 125 }
    ensures { IsVertex line square result }
{
    (square - line).div_euclid(square + square)
}

/// The place of a side nearest to a place.
fn nearest(side: Side, place: i128) -> i64
    requires { side.lower ≤ℤ side.upper }
    ensures { IsNearest side place result }
{
    if place <= i128::from(side.lower) {
        side.lower
    } else if i128::from(side.upper) <= place {
        side.upper
    } else {
        place as i64
    }
}

/// A place of a side at which a column adds least.
fn least_place(line: i128, square: i128, side: Side) -> i64
    requires filled { side.lower ≤ℤ side.upper }
    requires convex { pos 0 ≤ℤ square }
    requires fits { unsigned_abs line * reach side + unsigned_abs square * (reach side * reach side)
        ≤ 2 ^ 125 }
    ensures { IsLeastAt line square side result }
{
    if side.upper <= side.lower {
        side.lower
    } else if square > 0 {
        nearest(side, turning_place(line, square))
    } else if line < 0 {
        side.upper
    } else {
        side.lower
    }
}

/// The least that a column with a linear and a square cost adds over the whole
/// numbers of a side.
pub fn column_least(line: i128, square: i128, side: Side) -> i128
    requires filled { side.lower ≤ℤ side.upper }
    requires convex { pos 0 ≤ℤ square }
    requires fits { unsigned_abs line * reach side + unsigned_abs square * (reach side * reach side)
        ≤ 2 ^ 125 }
    ensures { result ≡ least_on line square side }
{
    column_value(line, square, least_place(line, square, side))
}

/// The least of the objective over the sides, column by column: at most its
/// value at each point on them.
pub fn least_value(problem: &Boxed, sides: &List<Side>) -> i128
    requires { Within sides.now problem.now.columns }
    ensures { result ≡ least_value (problem_of problem.now) sides.now }
{
    let line = problem.line.as_slice();
    let square = problem.square.as_slice();
    let box_sides = sides.as_slice();
    let mut sum = problem.constant;
    for j in 0..problem.columns.len() {
        sum += column_least(line[j], square[j], box_sides[j]);
    }
    sum
}
