ghost use Rattle.std.specs.Prelude.{◌≡◌, ◌+◌, ◌*◌, ◌^◌, ◌≤◌, unsigned_abs};
ghost use Rattle.boxed_problem.specs.Data.{problem_of};
ghost use Rattle.boxed_problem.specs.Objective.{curve, value_of};
ghost use Rattle.boxed_problem.specs.Points.{InBox};

use crate::problem::Boxed;
use wide_num::List;

/// What a column adds to the objective at the value `x`.
pub fn column_value(line: i128, square: i128, x: i64) -> i128
    requires { unsigned_abs line * unsigned_abs x + unsigned_abs square *
        (unsigned_abs x * unsigned_abs x) ≤ 2 ^ 125 }
    ensures { result ≡ curve line square x }
{
    let x = i128::from(x);
    line * x + square * (x * x)
}

impl Boxed {
    /// The objective at a point of the box.
    pub fn value(&self, point: &List<i64>) -> i128
        requires { InBox self.now.columns point.now }
        ensures { result ≡ value_of (problem_of self.now) point.now }
    {
        let line = self.line.as_slice();
        let square = self.square.as_slice();
        let values = point.as_slice();
        let mut sum = self.constant;
        for j in 0..self.columns.len() {
            sum += column_value(line[j], square[j], values[j]);
        }
        sum
    }
}
