ghost use Rattle.std.specs.Prelude.{◌≡◌, true, false, Some, None, IfOk};
ghost use Rattle.boxed_problem.specs.Odometer.{OnSides, next_point};
ghost use Rattle.boxed_problem.specs.Sides.{corner};

use crate::parts::Side;
use std::alloc::{AllocError, Global};
use wide_num::List;

/// The point of all lower ends.
pub fn first_point(alloc: Global, sides: &[Side]) -> Result<List<i64>, AllocError>
    ensures { IfOk result (λ x. x ≡ corner sides.now) }
{
    let mut point = List::new(alloc);
    for side in sides {
        point.push(side.lower)?;
    }
    Ok(point)
}

/// Goes on to the next point of the box. At the last point it answers false,
/// and goes back to the first.
pub fn step(sides: &[Side], point: &mut List<i64>) -> bool
    requires { OnSides sides.now point.old }
    ensures next { result ≡ true → next_point sides.now point.old ≡ Some point.new }
    ensures last { result ≡ false → next_point sides.now point.old ≡ None }
    ensures back { result ≡ false → point.new ≡ corner sides.now }
{
    let mut j = sides.len();
    while j > 0 {
        j -= 1;
        let value = point.as_slice()[j];
        if value < sides[j].upper {
            point.set(j, value + 1);
            return true;
        }
        point.set(j, sides[j].lower);
    }
    false
}
