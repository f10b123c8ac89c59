ghost use Rattle.std.specs.Prelude.{◌≡◌, ◌<◌, ◌≤ℤ◌, ◌↔◌, true, false, IsTrue, length};
ghost use Rattle.boxed_problem.specs.Fixing.{IsFixed};
ghost use Rattle.boxed_problem.specs.Sides.{side_at};

use crate::parts::Side;
use crate::problem::Boxed;

impl Boxed {
    /// Makes a column's box the single value. It answers false, and changes
    /// nothing, exactly where the value is outside the box.
    pub fn fix(&mut self, column: u32, value: i64) -> bool
        requires { column < length self.old.columns }
        ensures inside { IsTrue result
            ↔
            (((side_at self.old.columns column).lower ≤ℤ value)
            × (value ≤ℤ (side_at self.old.columns column).upper)) }
        ensures fixed { result ≡ true → IsFixed self.old self.new column value }
        ensures unchanged { result ≡ false → self.new ≡ self.old }
    {
        let side = self.columns.as_slice()[column as usize];
        if value < side.lower || side.upper < value {
            return false;
        }
        let single = Side {
            lower: value,
            upper: value,
        };
        self.columns.set(column as usize, single);
        true
    }
}
