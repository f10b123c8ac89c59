ghost use Rattle.std.specs.Prelude.{◌≡◌, ◌<◌, ◌≤◌, ◌≤ℤ◌, ◌↔◌, IsTrue, MatchOption};
ghost use Rattle.boxed_problem.specs.Points.{point_count, side_count};

use crate::parts::Side;
use crate::problem::Boxed;

/// How many whole numbers lie on a side, or none exactly where there are more
/// than a million.
fn count_on(side: Side) -> Option<u64>
    requires { side.lower ≤ℤ side.upper }
    ensures { MatchOption result (1000000 < side_count side)
        (λ n. (n ≡ side_count side) × (n ≤ 1000000)) }
{
    let far = i128::from(side.upper) - i128::from(side.lower);
    if far >= 1000000 {
        return None;
    }
    Some(far as u64 + 1)
}

impl Boxed {
    /// Whether the box has at most a million points, as `scan` wants.
    pub fn has_few_points(&self) -> bool
        ensures { IsTrue result ↔ (point_count self.now.columns ≤ 1000000) }
    {
        let columns = self.columns.as_slice();
        let mut count = 1u64;
        let mut j = columns.len();
        while j > 0 {
            j -= 1;
            let Some(on_side) = count_on(columns[j]) else {
                return false;
            };
            count *= on_side;
            if count > 1000000 {
                return false;
            }
        }
        true
    }
}
