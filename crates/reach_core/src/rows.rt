ghost use Rattle.std.specs.Prelude.{◌≡◌, ◌+◌, ◌*◌, ◌<◌, IfOk, length, map, slice_index, unsigned_abs};
ghost use Rattle.std.specs.List.{All, range_with_len};
ghost use Rattle.boxed_problem.specs.BoxedFacts.{limits_size};
ghost use Rattle.boxed_problem.specs.declared.parts.Entry.{Entry};
ghost use Rattle.capped_num.specs.Capped.{capped};
ghost use Rattle.sp_model.specs.Changes.{limits_of};
ghost use Rattle.sp_model.specs.Reaching.{box_reach, greatest};
ghost use Rattle.sp_model.specs.declared.program.Row.{Row};
ghost use Rattle.reach_core.specs.Greatest.{sums_of, with_part};
ghost use Rattle.reach_core.specs.Places.{AreThere};
ghost use Rattle.reach_core.specs.Rows.{AreOfCore};

use crate::magnitudes::{box_reach, larger, limits_size, size};
use boxed_problem::{Entry, Limits};
use capped_num::{capped_product, capped_sum};
use sp_model::{Program, Row};
use std::alloc::{AllocError, Global};
use wide_num::List;

/// The rows of the core: the greater magnitude of each one's limits, and the
/// sum of the parts of its entries, up to the cap.
#[derive(Drop)]
pub struct CoreRows {
    pub limits: Vec<u128>,
    pub sums: Vec<u128>,
}

/// The part of an entry in its row, up to the cap.
pub fn part(program: &Program, entry: &Entry) -> u128
    requires { entry.now.column < length program.now.columns }
    ensures { result
        ≡ capped (unsigned_abs entry.now.value * box_reach program.now entry.now.column) }
{
    capped_product(size(entry.value), box_reach(program, entry.column as usize))
}

// No parts yet.
fn zeros(alloc: Global, count: usize) -> Result<Vec<u128>, AllocError>
    ensures { IfOk result (λ zeros. zeros.items ≡ map (λ i. 0) (range_with_len 0 count)) }
{
    let mut zeros = Vec::new(alloc);
    for _i in 0..count {
        zeros.push(0)?;
    }
    Ok(zeros)
}

/// One more entry's part in its row.
pub fn add(sums: &mut Vec<u128>, program: &Program, entry: &Entry)
    requires row { entry.now.row < length sums.old.items }
    requires column { entry.now.column < length program.now.columns }
    ensures { sums.new.items ≡ with_part program.now sums.old.items entry.now }
{
    let row = entry.row as usize;
    let part = part(program, entry);
    sums[row] = capped_sum(sums[row], part);
}

// The parts of some entries in each row, up to the cap.
fn row_sums(alloc: Global, program: &Program, entries: &[Entry]) -> Result<Vec<u128>, AllocError>
    requires { All
        (λ (e : Entry). (e.row < length program.now.rows) × (e.column < length program.now.columns))
        entries.now }
    ensures { IfOk result (λ sums. sums.items ≡ sums_of program.now entries.now) }
{
    let mut sums = zeros(alloc, program.rows.len())?;
    for entry in entries {
        add(&mut sums, program, entry);
    }
    Ok(sums)
}

// The greater magnitude of a row's limits.
fn row_limits(row: &Row) -> u128
    ensures { result ≡ limits_size (limits_of row.now) }
{
    limits_size(&Limits {
        lower: row.lower,
        upper: row.upper,
    })
}

// The magnitudes of the limits of some rows.
fn limit_sizes(alloc: Global, rows: &List<Row>) -> Result<Vec<u128>, AllocError>
    ensures { IfOk result
        (λ sizes. sizes.items ≡ map (λ (row : Row). limits_size (limits_of row)) rows.now) }
{
    let mut sizes = Vec::new(alloc);
    for row in rows.as_slice() {
        sizes.push(row_limits(row))?;
    }
    Ok(sizes)
}

/// The rows of the core.
pub fn core_rows(alloc: Global, program: &Program) -> Result<CoreRows, AllocError>
    requires { AreThere program.now }
    ensures { IfOk result (λ core. AreOfCore program.now core) }
{
    let limits = limit_sizes(alloc, &program.rows)?;
    let sums = row_sums(alloc, program, program.entries.as_slice())?;
    Ok(CoreRows { limits, sums })
}

// A row: the magnitude of its limits and its parts, up to the cap.
fn row_reach(limits: &[u128], sums: &[u128], i: usize) -> u128
    requires limits { i < length limits.now }
    requires sums { i < length sums.now }
    ensures { result ≡ capped (slice_index limits.now i + slice_index sums.now i) }
{
    capped_sum(limits[i], sums[i])
}

/// The greatest row.
pub fn greatest_row(limits: &[u128], sums: &[u128]) -> u128
    requires { length limits.now ≡ length sums.now }
    ensures { result
        ≡ capped
        (greatest
        (map (λ i. slice_index limits.now i + slice_index sums.now i)
        (range_with_len 0 (length limits.now)))) }
{
    let mut most = 0;
    for i in 0..limits.len() {
        most = larger(most, row_reach(limits, sums, i));
    }
    most
}
