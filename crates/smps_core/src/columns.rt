ghost use Rattle.std.specs.Prelude.{◌≡◌, ◌<◌, length, map, IfOk};
ghost use Rattle.std.specs.List.{range_with_len};
ghost use Rattle.core_lines.specs.States.{before_in};
ghost use Rattle.smps_core.specs.CoreData.{columns_of};
ghost use Rattle.smps_core.specs.Rows.{column_with};

use crate::rows::ZERO;
use crate::sides::costs_of;
use core_lines::{State, lowers_of, uppers_of};
use dec_core::Decimal;
use smps_words::CoreColumn;
use std::alloc::{AllocError, Global};
use wide_num::List;

// The column of a number.
fn column_with(
    lowers: &[Option<i64>],
    uppers: &[Option<i64>],
    flags: &[bool],
    costs: &[Option<Decimal>],
    j: usize,
) -> CoreColumn
    requires lowers { j < length lowers.now }
    requires uppers { j < length uppers.now }
    requires costs { j < length costs.now }
    ensures { result ≡ column_with lowers.now uppers.now flags.now costs.now j }
{
    let marked = match flags.get(j) {
        Some(flag) => *flag,
        None => false,
    };
    CoreColumn {
        lower: lowers[j],
        upper: uppers[j],
        marked,
        cost: costs[j].unwrap_or(ZERO),
    }
}

// So many columns.
fn columns_with(
    alloc: Global,
    lowers: &[Option<i64>],
    uppers: &[Option<i64>],
    flags: &[bool],
    costs: &[Option<Decimal>],
) -> Result<List<CoreColumn>, AllocError>
    requires lowers { length lowers.now ≡ length costs.now }
    requires uppers { length uppers.now ≡ length costs.now }
    ensures { IfOk result
        (λ columns. columns
        ≡ map (column_with lowers.now uppers.now flags.now costs.now)
        (range_with_len 0 (length costs.now))) }
{
    let mut columns = List::new(alloc);
    for j in 0..costs.len() {
        columns.push(column_with(lowers, uppers, flags, costs, j))?;
    }
    Ok(columns)
}

/// The columns.
pub fn columns_of(alloc: Global, state: &State) -> Result<List<CoreColumn>, AllocError>
    ensures { IfOk result (λ columns. columns ≡ columns_of (before_in state.now)) }
{
    let count = state.columns.names.len();
    let lowers = lowers_of(alloc, state.bounds.bounds.as_slice(), count)?;
    let uppers = uppers_of(alloc, state.bounds.bounds.as_slice(), count)?;
    let costs = costs_of(alloc, state.columns.cells.as_slice(), count)?;
    columns_with(
        alloc,
        lowers.as_slice(),
        uppers.as_slice(),
        state.columns.flags.as_slice(),
        costs.as_slice(),
    )
}
