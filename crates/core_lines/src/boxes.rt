ghost use Rattle.std.specs.Prelude.{◌≡◌, ℕ, ◌<◌, None, Some, length, slice_index_or, slice_set, IfOk, if◌then◌else◌};
ghost use Rattle.core_lines.specs.Boxes.{any_below, end_said, has_empty_box, lower_of, speaks, upper_of};
ghost use Rattle.smps_words.specs.CoreFacts.{is_empty_box};

use crate::cells::{Bound, EndChange};
use std::alloc::{AllocError, Global};
use wide_num::List;

// Puts what a line says of an end in its place.
fn put_end(ends: &mut List<Option<i64>>, column: u32, change: EndChange)
    ensures { ends.new
        ≡ (if speaks change then slice_set ends.old column (end_said change) else ends.old) }
{
    if column as usize >= ends.len() {
        return;
    }
    match change {
        EndChange::Kept => {}
        EndChange::Open => {
            let _ = ends.set(column as usize, None);
        }
        EndChange::At(end) => {
            let _ = ends.set(column as usize, Some(end));
        }
    }
}

/// The lower ends of so many columns by the lines of BOUNDS.
pub fn lowers_of(
    alloc: Global,
    bounds: &[Bound],
    count: usize,
) -> Result<List<Option<i64>>, AllocError>
    ensures counted { IfOk result (λ ends. length ends ≡ count) }
    ensures each { IfOk result
        (λ ends. (j : ℕ) → j < count → slice_index_or ends j None ≡ lower_of bounds.now j) }
{
    let mut ends: List<Option<i64>> = List::repeated(alloc, Some(0), count)?;
    for bound in bounds {
        put_end(&mut ends, bound.column, bound.lower);
    }
    Ok(ends)
}

/// The upper ends of so many columns by the lines of BOUNDS.
pub fn uppers_of(
    alloc: Global,
    bounds: &[Bound],
    count: usize,
) -> Result<List<Option<i64>>, AllocError>
    ensures counted { IfOk result (λ ends. length ends ≡ count) }
    ensures each { IfOk result
        (λ ends. (j : ℕ) → j < count → slice_index_or ends j None ≡ upper_of bounds.now j) }
{
    let mut ends: List<Option<i64>> = List::repeated(alloc, None, count)?;
    for bound in bounds {
        put_end(&mut ends, bound.column, bound.upper);
    }
    Ok(ends)
}

// Whether no whole number lies between two ends.
fn is_empty_box(lower: Option<i64>, upper: Option<i64>) -> bool
    ensures { result ≡ is_empty_box lower upper }
{
    match (lower, upper) {
        (Some(lower), Some(upper)) => upper < lower,
        _ => false,
    }
}

// Whether one of the boxes between these ends is empty.
fn is_one_empty(lowers: &[Option<i64>], uppers: &[Option<i64>]) -> bool
    requires { length uppers.now ≡ length lowers.now }
    ensures { result
        ≡ any_below (length lowers.now)
        (λ j. is_empty_box (slice_index_or lowers.now j None) (slice_index_or uppers.now j None)) }
{
    for j in 0..lowers.len() {
        if is_empty_box(lowers[j], uppers[j]) {
            return true;
        }
    }
    false
}

// The same of two lists.
fn is_pair_empty(lowers: &List<Option<i64>>, uppers: &List<Option<i64>>) -> bool
    requires { length uppers.now ≡ length lowers.now }
    ensures { result
        ≡ any_below (length lowers.now)
        (λ j. is_empty_box (slice_index_or lowers.now j None) (slice_index_or uppers.now j None)) }
{
    is_one_empty(lowers.as_slice(), uppers.as_slice())
}

/// Whether one of so many boxes holds no whole number.
pub fn has_empty_box(alloc: Global, bounds: &[Bound], count: usize) -> Result<bool, AllocError>
    ensures { IfOk result (λ found. found ≡ has_empty_box bounds.now count) }
{
    let lowers = lowers_of(alloc, bounds, count)?;
    let uppers = uppers_of(alloc, bounds, count)?;
    Ok(is_pair_empty(&lowers, &uppers))
}
