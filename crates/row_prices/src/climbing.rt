ghost use Rattle.std.specs.Prelude.{◌≡◌, ◌<◌, ◌≤◌, length};

use crate::ascent::Ascent;

/// How often a step is doubled, or a gap halved, at most.
const STEPS: u32 = 127;

/// The part of a price by which it must move to count as moved.
const HAIR: u128 = 1 << 14;

/// A price of a row beyond which the row adds more, and one beyond which it
/// doesn't.
#[derive(Clone, Copy, Debug, Drop)]
struct Bracket {
    near: i128,
    far: i128,
}

/// The price a step up or down from another, but none past the last one.
fn step_from(price: i128, last: i128, step: i128, up: bool) -> i128 {
    if up {
        price.saturating_add(step).min(last)
    } else {
        price.saturating_sub(step).max(last)
    }
}

/// A number half way between two.
fn between(first: i128, second: i128) -> i128 {
    first.wrapping_add(second.wrapping_sub(first) / 2)
}

impl Ascent {
    /// Whether the row of these entries adds more at prices a little above
    /// (`up`) or below a price.
    fn climbs(&self, first: usize, end: usize, price: i128, up: bool) -> bool
        requires first { first < end }
        requires end { end ≤ length self.now.entries }
    {
        let slope = self.slope_at(first, end, price, up);
        if up { slope > 0 } else { slope < 0 }
    }

    /// Goes up or down from the present price by steps that double, as far as
    /// the row adds more and its price may go.
    fn bracket(&self, first: usize, end: usize, up: bool) -> Bracket
        requires first { first < end }
        requires end { end ≤ length self.now.entries }
    {
        let last = self.last_price(first, end, up);
        let mut near = self.price_of(self.row_at(first));
        let mut step = 1i128;
        for _ in 0..STEPS {
            let next = step_from(near, last, step, up);
            if next == near {
                break;
            }
            if !self.climbs(first, end, next, up) {
                return Bracket { near, far: next };
            }
            near = next;
            step = step.saturating_add(step);
        }
        Bracket { near, far: near }
    }

    /// The price in a bracket at which the row adds most.
    fn summit(&self, first: usize, end: usize, bracket: Bracket, up: bool) -> i128
        requires first { first < end }
        requires end { end ≤ length self.now.entries }
    {
        let Bracket { mut near, mut far } = bracket;
        for _ in 0..STEPS {
            let middle = between(near, far);
            if middle == near {
                break;
            }
            if self.climbs(first, end, middle, up) {
                near = middle;
            } else {
                far = middle;
            }
        }
        far
    }

    /// The price at which the row of these entries adds most. What a row adds is
    /// concave in its price, so where it adds no more a little above and a
    /// little below the present price, it adds most there.
    fn highest_price(&self, first: usize, end: usize) -> i128
        requires first { first < end }
        requires end { end ≤ length self.now.entries }
    {
        let present = self.price_of(self.row_at(first));
        for up in [true, false] {
            if self.climbs(first, end, present, up) {
                return self.summit(first, end, self.bracket(first, end, up), up);
            }
        }
        present
    }

    /// Moves the price of the row of these entries to where it adds most, and
    /// answers whether it moved by more than a hair.
    fn ascend_row(&mut self, first: usize, end: usize) -> bool
        requires first { first < end }
        requires end { end ≤ length self.old.entries }
        ensures { self.new.entries ≡ self.old.entries }
    {
        let present = self.price_of(self.row_at(first));
        let price = self.highest_price(first, end);
        if price == present {
            return false;
        }
        self.set_price(first, end, price);
        let moved = price.wrapping_sub(present).unsigned_abs();
        moved > present.unsigned_abs() / HAIR
    }

    /// Moves the price of each row once, and answers whether one moved by more
    /// than a hair.
    fn ascend_once(&mut self) -> bool
        ensures { self.new.entries ≡ self.old.entries }
    {
        let mut moved = false;
        let mut first = 0;
        while first < self.entries.len() {
            let end = self.row_end(first);
            if self.ascend_row(first, end) {
                moved = true;
            }
            first = end;
        }
        moved
    }

    /// Moves the prices round after round, until a round moves none.
    pub fn ascend(&mut self, rounds: u32) {
        for _ in 0..rounds {
            if !self.ascend_once() {
                break;
            }
        }
    }
}
