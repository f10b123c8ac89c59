ghost use Rattle.std.specs.Prelude.{◌≡◌, ◌+◌, ◌*◌, ◌^◌, ◌≤◌, ◌↔◌, IsTrue, length, unsigned_abs};
ghost use Rattle.boxed_problem.specs.Data.{problem_of};
ghost use Rattle.boxed_problem.specs.PriceFit.{FitsPrices, HasSign, price_size};

use crate::magnitude::{MAX_PART, add_product, row_size_upto, value_size_upto};
use crate::parts::{Limits, Prices};
use crate::problem::Boxed;

/// The greatest magnitude that prices may have.
pub const MAX_PRICE_SIZE: u128 = 1 << 125;

/// Whether a price has the sign that the limits of its row ask for.
pub fn has_sign(limits: Limits, price: i128) -> bool
    ensures { IsTrue result ↔ HasSign limits price }
{
    (price >= 0 || limits.upper.is_some()) && (price <= 0 || limits.lower.is_some())
}

impl Boxed {
    /// Whether the prices' magnitude is small enough.
    fn is_small(&self, prices: &Prices) -> bool
        requires { length prices.now.values ≡ length self.now.rows }
        ensures { IsTrue result ↔ (price_size (problem_of self.now) prices.now ≤ 2 ^ 125) }
    {
        let columns = self.columns.as_slice();
        let rows = self.rows.as_slice();
        let entries = self.entries.as_slice();
        let line = self.line.as_slice();
        let square = self.square.as_slice();
        let values = prices.values.as_slice();
        let Some(span) = value_size_upto(columns, self.constant, line, square, MAX_PART) else {
            return false;
        };
        let Some(mut sum) = add_product(0, prices.scale.unsigned_abs(), span, MAX_PRICE_SIZE) else {
            return false;
        };
        for i in 0..rows.len() {
            let Some(size) = row_size_upto(columns, rows, entries, i, MAX_PART) else {
                return false;
            };
            let Some(next) = add_product(sum, values[i].unsigned_abs(), size, MAX_PRICE_SIZE) else {
                return false;
            };
            sum = next;
        }
        true
    }

    /// Whether there is one price for each row, the scale is at least 1, each
    /// price has the sign that its row's limits ask for, and the scale and the
    /// prices are small enough.
    pub fn fits(&self, prices: &Prices) -> bool
        ensures { IsTrue result ↔ FitsPrices (problem_of self.now) prices.now }
    {
        if prices.values.len() != self.rows.len() || prices.scale < 1 {
            return false;
        }
        let rows = self.rows.as_slice();
        let values = prices.values.as_slice();
        for i in 0..rows.len() {
            if !has_sign(rows[i], values[i]) {
                return false;
            }
        }
        self.is_small(prices)
    }
}
