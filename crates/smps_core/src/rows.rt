ghost use Rattle.std.specs.Prelude.{◌≡◌, ◌+◌, ◌<◌, ◌≤◌, ◌^◌, length, map, IfOk};
ghost use Rattle.std.specs.List.{range_with_len};
ghost use Rattle.core_lines.specs.States.{before_in};
ghost use Rattle.smps_core.specs.CoreData.{rows_of};
ghost use Rattle.smps_core.specs.Rows.{row_with};

use crate::sides::sides_of;
use core_lines::State;
use dec_core::Decimal;
use smps_words::{CoreRow, RowKind};
use std::alloc::{AllocError, Global};
use wide_num::List;

/// The number 0.
pub const ZERO: Decimal = Decimal {
    mantissa: 0,
    places: 0,
};

// The row of a number.
fn row_with(
    kinds: &[RowKind],
    rights: &[Option<Decimal>],
    ranges: &[Option<Decimal>],
    i: usize,
) -> CoreRow
    requires rights { i + 1 < length rights.now }
    requires ranges { i + 1 < length ranges.now }
    requires small { i < 2 ^ 32 }
    ensures { result ≡ row_with kinds.now rights.now ranges.now i }
{
    let kind = match kinds.get(i) {
        Some(kind) => *kind,
        None => RowKind::Less,
    };
    CoreRow {
        kind,
        right: rights[i + 1].unwrap_or(ZERO),
        range: ranges[i + 1],
    }
}

// So many rows.
fn rows_with(
    alloc: Global,
    kinds: &[RowKind],
    rights: &[Option<Decimal>],
    ranges: &[Option<Decimal>],
    count: usize,
) -> Result<List<CoreRow>, AllocError>
    requires rights { length rights.now ≡ count + 1 }
    requires ranges { length ranges.now ≡ count + 1 }
    requires small { count < 2 ^ 32 }
    ensures { IfOk result
        (λ rows. rows ≡ map (row_with kinds.now rights.now ranges.now) (range_with_len 0 count)) }
{
    let mut rows = List::new(alloc);
    for i in 0..count {
        rows.push(row_with(kinds, rights, ranges, i))?;
    }
    Ok(rows)
}

/// The constraint rows.
pub fn rows_of(alloc: Global, state: &State) -> Result<List<CoreRow>, AllocError>
    ensures { IfOk result (λ rows. rows ≡ rows_of (before_in state.now)) }
{
    let count = state.rows.names.len();
    let rights = sides_of(alloc, state.rights.values.as_slice(), count + 1)?;
    let ranges = sides_of(alloc, state.ranges.values.as_slice(), count + 1)?;
    rows_with(
        alloc,
        state.rows.kinds.as_slice(),
        rights.as_slice(),
        ranges.as_slice(),
        count,
    )
}
