ghost use Rattle.std.specs.Prelude.{◌≡◌, ◌≤ℤ◌, true};
ghost use Rattle.boxed_problem.specs.Data.{problem_of};
ghost use Rattle.boxed_problem.specs.PriceFit.{FitsPrices};
ghost use Rattle.boxed_problem.specs.Sides.{Within};

use boxed_problem::{Boxed, Entry, Limits, Prices, Side};
use std::alloc::{AllocError, Global};
use std::process::Abort;
use wide_num::List;

/// A row's limits.
pub type Row = (Option<i128>, Option<i128>);

/// The sides of these ends.
pub fn sides_of(alloc: Global, ends: &[(i64, i64)]) -> Result<List<Side>, AllocError> {
    let mut sides = List::new(alloc);
    for (lower, upper) in ends {
        let side = Side {
            lower: *lower,
            upper: *upper,
        };
        sides.push(side)?;
    }
    Ok(sides)
}

/// The problem of plain arrays: the ends of the columns, the limits of the
/// rows, entries as row, column and value, and for each column its linear and
/// its square part.
pub fn problem(
    alloc: Global,
    columns: &[(i64, i64)],
    rows: &[Row],
    entries: &[(u32, u32, i128)],
    constant: i128,
    objective: &[(i128, i128)],
) -> Result<Option<Boxed>, AllocError> {
    let sides = sides_of(alloc, columns)?;
    let mut limits = List::new(alloc);
    for (lower, upper) in rows {
        let limit = Limits {
            lower: *lower,
            upper: *upper,
        };
        limits.push(limit)?;
    }
    let mut cells = List::new(alloc);
    for (row, column, value) in entries {
        let cell = Entry {
            row: *row,
            column: *column,
            value: *value,
        };
        cells.push(cell)?;
    }
    let mut line = List::new(alloc);
    let mut square = List::new(alloc);
    for (linear, curved) in objective {
        line.push(*linear)?;
        square.push(*curved)?;
    }
    Ok(Boxed::new(sides, limits, cells, constant, line, square))
}

/// A scenario problem of the worked example SMALL, with this need.
pub fn small(rt: &impl Abort, alloc: Global, need: i128) -> Result<Boxed, AllocError> {
    let found = problem(
        alloc,
        &[(0, 10), (0, 10)],
        &[(Some(need), None)],
        &[(0, 0, 1), (0, 1, 1)],
        0,
        &[(10, 0), (30, 0)],
    )?;
    Ok(found.expect(rt, "a problem"))
}

/// The problem of two columns that are 0 or 1, cost the same, and aren't both 0.
pub fn tied(rt: &impl Abort, alloc: Global) -> Result<Boxed, AllocError> {
    let found = problem(
        alloc,
        &[(0, 1), (0, 1)],
        &[(Some(1), None)],
        &[(0, 0, 1), (0, 1, 1)],
        0,
        &[(1, 0), (1, 0)],
    )?;
    Ok(found.expect(rt, "a problem"))
}

/// Whether a side isn't empty and lies in another.
fn is_within(inner: Side, outer: Side) -> bool
    ensures { result ≡ true →
        (inner.lower ≤ℤ inner.upper) × (outer.lower ≤ℤ inner.lower) × (inner.upper ≤ℤ outer.upper) }
{
    if inner.lower > inner.upper {
        return false;
    }
    outer.lower <= inner.lower && inner.upper <= outer.upper
}

/// Whether sides lie in others.
pub fn lie_within(inner: &[Side], outer: &[Side]) -> bool
    ensures { result ≡ true → Within inner.now outer.now }
{
    if inner.len() != outer.len() {
        return false;
    }
    for j in 0..outer.len() {
        if !is_within(inner[j], outer[j]) {
            return false;
        }
    }
    true
}

/// Checks that prices fit a problem and that sides lie in its box.
pub fn check_fit(rt: &impl Abort, problem: &Boxed, sides: &List<Side>, prices: &Prices)
    ensures sides { Within sides.now problem.now.columns }
    ensures prices { FitsPrices (problem_of problem.now) prices.now }
{
    assert!(rt; problem.fits(prices));
    assert!(rt; lie_within(sides.as_slice(), problem.columns.as_slice()));
}

/// Prices of the rows over one scale.
pub fn prices(alloc: Global, scale: i128, values: &[i128]) -> Result<Prices, AllocError> {
    let values = List::from_vec(Vec::from_slice(alloc, values)?);
    Ok(Prices { scale, values })
}
