ghost use Rattle.std.specs.Prelude.{◌≡◌, true, ◌++◌, map, length, IfOk, OnOk};
ghost use Rattle.std.specs.List.{All, fold};
ghost use Rattle.sp_model.specs.Changes.{cell_of, cells_of, core_data, data_of, limits_of, put_entries};
ghost use Rattle.sp_model.specs.Drafts.{data_in, has_column, has_row, with_cost, with_limits};
ghost use Rattle.sp_model.specs.RunFacts.{is_change};

use crate::merging::{merged, ordered};
use crate::program::{Change, Column, Program, Row, Scenario};
use boxed_problem::{Entry, Limits};
use std::alloc::{AllocError, Global};
use wide_num::List;

/// The data of the core or of a scenario: costs, limits of rows, and entries.
#[derive(Drop)]
pub struct Draft {
    pub costs: Vec<i128>,
    pub limits: Vec<Limits>,
    pub entries: Vec<Entry>,
}

// The costs of the columns.
fn costs(alloc: Global, columns: &List<Column>) -> Result<Vec<i128>, AllocError>
    ensures { IfOk result (λ costs. costs.items ≡ map (λ column. column.cost) columns.now) }
{
    let mut costs = Vec::new(alloc);
    for column in columns.as_slice() {
        costs.push(column.cost)?;
    }
    Ok(costs)
}

// The limits of the rows.
fn limits(alloc: Global, rows: &List<Row>) -> Result<Vec<Limits>, AllocError>
    ensures { IfOk result (λ limits. limits.items ≡ map limits_of rows.now) }
{
    let mut limits = Vec::new(alloc);
    for row in rows.as_slice() {
        limits.push(Limits {
            lower: row.lower,
            upper: row.upper,
        })?;
    }
    Ok(limits)
}

// A copy of the entries.
fn copied(alloc: Global, entries: &List<Entry>) -> Result<Vec<Entry>, AllocError>
    ensures { IfOk result (λ copy. copy.items ≡ entries.now) }
{
    let copy = Vec::from_slice(alloc, entries.as_slice())?;
    Ok(copy)
}

/// The core's own data.
pub fn core_draft(alloc: Global, program: &Program) -> Result<Draft, AllocError>
    ensures { IfOk result (λ draft. data_in draft ≡ core_data program.now) }
{
    let costs = costs(alloc, &program.columns)?;
    let limits = limits(alloc, &program.rows)?;
    let entries = copied(alloc, &program.entries)?;
    Ok(Draft {
        costs,
        limits,
        entries,
    })
}

// Writes the cost that a change gives, if it gives one.
fn write_cost(costs: &mut Vec<i128>, change: &Change)
    requires { has_column (length costs.old.items) change.now ≡ true }
    ensures { costs.new.items ≡ with_cost costs.old.items change.now }
{
    match change {
        Change::Cost { column, value } => {
            costs[*column as usize] = *value;
        }
        Change::Cell { .. } | Change::Limits { .. } => {}
    }
}

// The costs of a scenario.
fn changed_costs(
    alloc: Global,
    program: &Program,
    changes: &[Change],
) -> Result<Vec<i128>, AllocError>
    requires { All (λ c. is_change (length program.now.rows) (length program.now.columns) c ≡ true)
        changes.now }
    ensures { IfOk result (λ costs.
        costs.items ≡ fold with_cost (core_data program.now).costs changes.now) }
{
    let mut costs = costs(alloc, &program.columns)?;
    for change in changes {
        write_cost(&mut costs, change);
    }
    Ok(costs)
}

// Writes the limits that a change gives, if it gives some.
fn write_limits(limits: &mut Vec<Limits>, change: &Change)
    requires { has_row (length limits.old.items) change.now ≡ true }
    ensures { limits.new.items ≡ with_limits limits.old.items change.now }
{
    match change {
        Change::Limits { row, lower, upper } => {
            limits[*row as usize] = Limits {
                lower: *lower,
                upper: *upper,
            };
        }
        Change::Cost { .. } | Change::Cell { .. } => {}
    }
}

// The limits of the rows of a scenario.
fn changed_limits(
    alloc: Global,
    program: &Program,
    changes: &[Change],
) -> Result<Vec<Limits>, AllocError>
    requires { All (λ c. is_change (length program.now.rows) (length program.now.columns) c ≡ true)
        changes.now }
    ensures { IfOk result (λ limits.
        limits.items ≡ fold with_limits (core_data program.now).limits changes.now) }
{
    let mut limits = limits(alloc, &program.rows)?;
    for change in changes {
        write_limits(&mut limits, change);
    }
    Ok(limits)
}

// Appends the entry that a change gives, if it gives one.
fn append_cell(cells: &mut Vec<Entry>, change: &Change) -> Result<(), AllocError>
    ensures { OnOk result (cells.new.items ≡ cells.old.items ++ cell_of change.now) }
{
    match change {
        Change::Cell { row, column, value } => {
            cells.push(Entry {
                row: *row,
                column: *column,
                value: *value,
            })?;
            Ok(())
        }
        Change::Cost { .. } | Change::Limits { .. } => Ok(()),
    }
}

// The entries that changes give, in their order.
fn cells(alloc: Global, changes: &[Change]) -> Result<Vec<Entry>, AllocError>
    ensures { IfOk result (λ cells. cells.items ≡ cells_of changes.now) }
{
    let mut cells = Vec::new(alloc);
    for change in changes {
        append_cell(&mut cells, change)?;
    }
    Ok(cells)
}

// The entries of a scenario: those of its changes are put in order first, and so
// the core's are passed only once.
fn changed_entries(
    alloc: Global,
    entries: &[Entry],
    changes: &[Change],
) -> Result<Vec<Entry>, AllocError>
    ensures { IfOk result (λ all. all.items ≡ put_entries entries.now (cells_of changes.now)) }
{
    let cells = cells(alloc, changes)?;
    let over = ordered(alloc, cells.as_slice())?;
    merged(alloc, entries, over.as_slice())
}

/// The data of a scenario: the core's, with each change of the scenario in its
/// place.
pub fn drafted(alloc: Global, program: &Program, scenario: &Scenario) -> Result<Draft, AllocError>
    requires { All (λ c. is_change (length program.now.rows) (length program.now.columns) c ≡ true)
        scenario.now.changes }
    ensures { IfOk result (λ draft. data_in draft ≡ data_of program.now scenario.now) }
{
    let changes = scenario.changes.as_slice();
    let costs = changed_costs(alloc, program, changes)?;
    let limits = changed_limits(alloc, program, changes)?;
    let entries = changed_entries(alloc, program.entries.as_slice(), changes)?;
    Ok(Draft {
        costs,
        limits,
        entries,
    })
}
