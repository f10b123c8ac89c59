ghost use Rattle.std.specs.Prelude.{◌≡◌, ℕ, ◌<◌, ◌==◌, None, Some, length, slice_index_or, slice_set, IfOk, if◌then◌else◌};
ghost use Rattle.smps_core.specs.CoreData.{cost_of, side_said};

use core_lines::{Cell, RowValue};
use dec_core::Decimal;
use std::alloc::{AllocError, Global};
use wide_num::List;

// Puts a number in its place, if there is one.
fn put(numbers: &mut List<Option<Decimal>>, place: u32, number: Decimal)
    ensures { numbers.new ≡ slice_set numbers.old place (Some number) }
{
    if (place as usize) < numbers.len() {
        let _ = numbers.set(place as usize, Some(number));
    }
}

// Puts the number of a pair in its column's place, where the row is the objective.
fn put_cost(numbers: &mut List<Option<Decimal>>, row: u32, column: u32, number: Decimal)
    ensures { numbers.new
        ≡ (if row == 0 then slice_set numbers.old column (Some number) else numbers.old) }
{
    if row == 0 {
        put(numbers, column, number);
    }
}

/// What the lines of RHS or RANGES say of each of so many rows, the objective
/// first.
pub fn sides_of(
    alloc: Global,
    values: &[RowValue],
    count: usize,
) -> Result<List<Option<Decimal>>, AllocError>
    ensures counted { IfOk result (λ sides. length sides ≡ count) }
    ensures each { IfOk result
        (λ sides. (place : ℕ) → place < count →
        slice_index_or sides place None ≡ side_said values.now place) }
{
    let mut sides: List<Option<Decimal>> = List::repeated(alloc, None, count)?;
    for value in values {
        put(&mut sides, value.row, value.value);
    }
    Ok(sides)
}

/// The costs that the lines of COLUMNS say of each of so many columns.
pub fn costs_of(
    alloc: Global,
    cells: &[Cell],
    count: usize,
) -> Result<List<Option<Decimal>>, AllocError>
    ensures counted { IfOk result (λ costs. length costs ≡ count) }
    ensures each { IfOk result
        (λ costs. (j : ℕ) → j < count → slice_index_or costs j None ≡ cost_of cells.now j) }
{
    let mut costs: List<Option<Decimal>> = List::repeated(alloc, None, count)?;
    for cell in cells {
        put_cost(&mut costs, cell.row, cell.column, cell.value);
    }
    Ok(costs)
}
