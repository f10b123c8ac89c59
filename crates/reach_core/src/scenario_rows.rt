ghost use Rattle.std.specs.Prelude.{◌≡◌, ◌<◌, ◌≤◌, ◌^◌, IfOk, length, true};
ghost use Rattle.std.specs.List.{All, fold};
ghost use Rattle.capped_num.specs.Capped.{capped};
ghost use Rattle.sp_model.specs.Changes.{core_data, data_of};
ghost use Rattle.sp_model.specs.RunFacts.{IsScenario, is_change};
ghost use Rattle.sp_model.specs.Reaching.{data_reach};
ghost use Rattle.reach_core.specs.Changed.{given_by, limited_by, taken_by};
ghost use Rattle.reach_core.specs.Places.{AreOrdered};
ghost use Rattle.reach_core.specs.Rows.{AreOfCore};

use crate::cells::core_cell;
use crate::magnitudes::limits_size;
use crate::rows::{CoreRows, add, greatest_row, part};
use boxed_problem::{Entry, Limits};
use sp_model::{Change, Program, Scenario};
use std::alloc::{AllocError, Global};

// Takes the core's part at the place of a change from its row.
fn take(sums: &mut Vec<u128>, program: &Program, change: &Change)
    requires ordered { AreOrdered program.now }
    requires there { is_change (length sums.old.items) (length program.now.columns) change.now
        ≡ true }
    ensures { sums.new.items ≡ taken_by program.now sums.old.items change.now }
{
    if let Change::Cell { row, column, .. } = change {
        let old = Entry {
            row: *row,
            column: *column,
            value: core_cell(program, *row, *column),
        };
        let part = part(program, &old);
        let row = *row as usize;
        sums[row] = sums[row].saturating_sub(part);
    }
}

// Gives the part of a change to its row.
fn give(sums: &mut Vec<u128>, program: &Program, change: &Change)
    requires { is_change (length sums.old.items) (length program.now.columns) change.now ≡ true }
    ensures { sums.new.items ≡ given_by program.now sums.old.items change.now }
{
    if let Change::Cell { row, column, value } = change {
        let new = Entry {
            row: *row,
            column: *column,
            value: *value,
        };
        add(sums, program, &new);
    }
}

// Gives the limits of a change to its row.
fn limit(sizes: &mut Vec<u128>, program: &Program, change: &Change)
    requires { is_change (length sizes.old.items) (length program.now.columns) change.now ≡ true }
    ensures { sizes.new.items ≡ limited_by sizes.old.items change.now }
{
    if let Change::Limits { row, lower, upper } = change {
        let limits = Limits {
            lower: *lower,
            upper: *upper,
        };
        sizes[*row as usize] = limits_size(&limits);
    }
}

// The core's sums without what it has at the places of some changes.
fn rest(
    alloc: Global,
    program: &Program,
    sums: &[u128],
    changes: &[Change],
) -> Result<Vec<u128>, AllocError>
    requires ordered { AreOrdered program.now }
    requires there { All
        (λ c. is_change (length sums.now) (length program.now.columns) c ≡ true)
        changes.now }
    ensures { IfOk result
        (λ rest. rest.items ≡ fold (taken_by program.now) sums.now changes.now) }
{
    let mut rest = Vec::from_slice(alloc, sums)?;
    for change in changes {
        take(&mut rest, program, change);
    }
    Ok(rest)
}

// Gives the parts of some changes to their rows.
fn give_all(sums: &mut Vec<u128>, program: &Program, changes: &[Change])
    requires { All
        (λ c. is_change (length sums.old.items) (length program.now.columns) c ≡ true)
        changes.now }
    ensures { sums.new.items ≡ fold (given_by program.now) sums.old.items changes.now }
{
    for change in changes {
        give(sums, program, change);
    }
}

// The magnitudes of the core's limits, with those of some changes.
fn changed_limits(
    alloc: Global,
    program: &Program,
    sizes: &[u128],
    changes: &[Change],
) -> Result<Vec<u128>, AllocError>
    requires { All
        (λ c. is_change (length sizes.now) (length program.now.columns) c ≡ true)
        changes.now }
    ensures { IfOk result (λ changed. changed.items ≡ fold limited_by sizes.now changes.now) }
{
    let mut changed = Vec::from_slice(alloc, sizes)?;
    for change in changes {
        limit(&mut changed, program, change);
    }
    Ok(changed)
}

/// The greatest row of a scenario, up to the cap, exactly where the core's own
/// rows are below the cap: the core's, with what the changes take and give.
pub fn scenario_row(
    alloc: Global,
    program: &Program,
    core: &CoreRows,
    scenario: &Scenario,
) -> Result<u128, AllocError>
    requires ordered { AreOrdered program.now }
    requires scenario { IsScenario program.now scenario.now }
    requires core { AreOfCore program.now core.now }
    ensures few { IfOk result (λ most. most ≤ 2 ^ 127) }
    ensures exact { data_reach program.now (core_data program.now) < 2 ^ 127 →
        IfOk result
        (λ most. most ≡ capped (data_reach program.now (data_of program.now scenario.now))) }
{
    let changes = scenario.changes.as_slice();
    let mut sums = rest(alloc, program, core.sums.as_slice(), changes)?;
    give_all(&mut sums, program, changes);
    let limits = changed_limits(alloc, program, core.limits.as_slice(), changes)?;
    Ok(greatest_row(limits.as_slice(), sums.as_slice()))
}
