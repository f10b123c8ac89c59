ghost use Rattle.std.specs.Prelude.{◌≡◌, ◌≤◌, ◌≤ℤ◌, length, pos, unsigned_abs};
ghost use Rattle.dual_simplex.specs.Capped.{AreCapped, IsCapped};

use boxed_problem::Limits;

/// The lesser of a magnitude and a cap.
fn least(size: u128, cap: u128) -> i128
    ensures sign { pos 0 ≤ℤ result }
    ensures size { unsigned_abs result ≤ cap }
{
    let most = size.min(cap);
    if most < 1 << 127 { most as i128 } else { 0 }
}

/// A price at most a cap in magnitude. It is positive only where the row has a
/// lower limit, and negative only where it has an upper one.
pub fn cut(limits: Limits, cap: u128, price: i128) -> i128
    ensures { IsCapped limits cap result }
{
    if price > 0 && limits.lower.is_some() {
        return least(price.unsigned_abs(), cap);
    }
    if price < 0 && limits.upper.is_some() {
        return -least(price.unsigned_abs(), cap);
    }
    0
}

/// Cuts each price to the sign and the cap of its row.
pub fn cut_all(rows: &[Limits], caps: &[u128], prices: &mut [i128])
    requires rows { length prices.old ≡ length rows.now }
    requires caps { length caps.now ≡ length rows.now }
    ensures { AreCapped rows.now caps.now prices.new }
{
    for i in 0..rows.len() {
        prices[i] = cut(rows[i], caps[i], prices[i]);
    }
}

/// Prices with a multiple of others, cut to the sign and the cap of each row.
pub fn add_times(rows: &[Limits], caps: &[u128], prices: &mut [i128], more: &[i128], by: i128)
    requires rows { length prices.old ≡ length rows.now }
    requires caps { length caps.now ≡ length rows.now }
    requires more { length more.now ≡ length rows.now }
    ensures { AreCapped rows.now caps.now prices.new }
{
    for i in 0..rows.len() {
        prices[i] = prices[i].saturating_add(more[i].saturating_mul(by));
    }
    cut_all(rows, caps, prices);
}
