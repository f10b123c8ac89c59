ghost use Rattle.std.specs.Prelude.{◌≡◌, ℕ, ℤ, pos, ◌*◌, ◌+ℤ◌, ◌*ℤ◌, ◌-ℤ◌, ◌^◌, ◌≤◌, ◌≤ℤ◌, ◌<ℤ◌, ◌↔◌, IsTrue, unsigned_abs};
ghost use Rattle.boxed_problem.specs.Sides.{reach};
ghost use Rattle.propagate.specs.Ranged.{IsInside};
ghost use Rattle.propagate.specs.Tightening.{IsSteps, KeepsAbove, KeepsBelow};

use boxed_problem::Side;

/// How far the ends of a side are apart.
fn extent(side: Side) -> i128
    requires { side.lower ≤ℤ side.upper }
    ensures { result ≡ side.upper -ℤ side.lower }
{
    i128::from(side.upper) - i128::from(side.lower)
}

/// Whether so many times the extent of a side is at most a slack.
fn is_slack(side: Side, size: i128, slack: i128) -> bool
    requires filled { side.lower ≤ℤ side.upper }
    requires fits { unsigned_abs size * reach side ≤ 2 ^ 125 }
    ensures { IsTrue result ↔ ((size *ℤ (side.upper -ℤ side.lower)) ≤ℤ slack) }
{
    size * extent(side) <= slack
}

/// How many steps a slack allows.
fn steps(side: Side, size: i128, slack: i128) -> i128
    requires size { pos 0 <ℤ size }
    requires slack { pos 0 ≤ℤ slack }
    requires short { slack <ℤ (size *ℤ (side.upper -ℤ side.lower)) }
    ensures { IsSteps size slack (side.upper -ℤ side.lower) result }
{
    let _side = side;
    slack.div_euclid(size)
}

/// The value so many steps above the lower end of a side.
fn go_up(side: Side, steps: i128) -> i64
    requires least { pos 0 ≤ℤ steps }
    requires most { steps <ℤ (side.upper -ℤ side.lower) }
    ensures { result ≡ side.lower +ℤ steps }
{
    let upper = i128::from(side.lower) + steps;
    upper as i64
}

/// The value so many steps below the upper end of a side.
fn go_down(side: Side, steps: i128) -> i64
    requires least { pos 0 ≤ℤ steps }
    requires most { steps <ℤ (side.upper -ℤ side.lower) }
    ensures { result ≡ side.upper -ℤ steps }
{
    let lower = i128::from(side.upper) - steps;
    lower as i64
}

/// The side up to so many steps above its lower end.
fn keep_low(side: Side, size: i128, slack: i128) -> Side
    requires filled { side.lower ≤ℤ side.upper }
    requires size { pos 0 <ℤ size }
    requires fits { unsigned_abs size * reach side ≤ 2 ^ 125 }
    requires slack { pos 0 ≤ℤ slack }
    ensures inside { IsInside result side }
    ensures lower { result.lower ≡ side.lower }
    ensures keeps { (x : ℤ) → x ≤ℤ side.upper → (size *ℤ (x -ℤ side.lower)) ≤ℤ slack →
        x ≤ℤ result.upper }
{
    if is_slack(side, size, slack) {
        return side;
    }
    let upper = go_up(side, steps(side, size, slack));
    Side {
        lower: side.lower,
        upper,
    }
}

/// The side from so many steps below its upper end.
fn keep_high(side: Side, size: i128, slack: i128) -> Side
    requires filled { side.lower ≤ℤ side.upper }
    requires size { pos 0 <ℤ size }
    requires fits { unsigned_abs size * reach side ≤ 2 ^ 125 }
    requires slack { pos 0 ≤ℤ slack }
    ensures inside { IsInside result side }
    ensures upper { result.upper ≡ side.upper }
    ensures keeps { (x : ℤ) → side.lower ≤ℤ x → (size *ℤ (side.upper -ℤ x)) ≤ℤ slack →
        result.lower ≤ℤ x }
{
    if is_slack(side, size, slack) {
        return side;
    }
    let lower = go_down(side, steps(side, size, slack));
    Side {
        lower,
        upper: side.upper,
    }
}

/// The values of a side whose product with a number is at most a slack above
/// the least one.
pub fn cut_above(side: Side, value: i128, slack: i128) -> Side
    requires wide { side.lower <ℤ side.upper }
    requires fits { unsigned_abs value * reach side ≤ 2 ^ 125 }
    requires slack { pos 0 ≤ℤ slack }
    ensures { KeepsAbove value side slack result }
{
    if value > 0 {
        keep_low(side, value, slack)
    } else if value < 0 {
        keep_high(side, -value, slack)
    } else {
        side
    }
}

/// The values of a side whose product with a number is at most a slack below
/// the greatest one.
pub fn cut_below(side: Side, value: i128, slack: i128) -> Side
    requires wide { side.lower <ℤ side.upper }
    requires fits { unsigned_abs value * reach side ≤ 2 ^ 125 }
    requires slack { pos 0 ≤ℤ slack }
    ensures { KeepsBelow value side slack result }
{
    if value > 0 {
        keep_high(side, value, slack)
    } else if value < 0 {
        keep_low(side, -value, slack)
    } else {
        side
    }
}
