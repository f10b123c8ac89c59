ghost use Rattle.std.specs.Prelude.{◌≡◌, ◌+ℤ◌, ◌-ℤ◌, ◌<◌, length, FitsSigned};
ghost use Rattle.std.specs.Int.{w128};
ghost use Rattle.base_words.specs.ListSums.{sum_z};
ghost use Rattle.boxed_problem.specs.Points.{InBox};
ghost use Rattle.boxed_problem.specs.Rows.{activity, activity_part};
ghost use Rattle.sp_model.specs.Changes.{core_data, sides};
ghost use Rattle.sp_model.specs.Problems.{data_at, scenarios};
ghost use Rattle.plan_calls.specs.Moves.{IsSmallMove, IsSmallPart, cell, entry_in, move_of};

use crate::values::{changes, core_cell};
use boxed_problem::{Entry, product};
use sp_model::{Change, Program, Run};
use wide_num::{minus, plus};

// What an entry adds to the activity of a row at a point.
fn entry_part(entry: Entry, point: &[i64], row: u32) -> i128
    requires { IsSmallPart point.now row entry }
    ensures { result ≡ activity_part point.now row entry }
{
    if entry.row == row {
        product(entry.value, point[entry.column as usize])
    } else {
        0
    }
}

// The activity of a row at a point of the box, by the core's entries.
fn core_activity(run: &Run, point: &[i64], row: u32) -> i128
    requires inside { InBox (sides run.now.program) point.now }
    requires row { row < length run.now.program.rows }
    ensures { result ≡ activity run.now.program.entries point.now row }
{
    let mut sum = 0i128;
    for entry in run.program.entries.as_slice() {
        sum = plus(sum, entry_part(*entry, point, row));
    }
    sum
}

// By how much another entry moves the activity of its row from what the core's
// entry of its place gives.
fn cell_move(program: &Program, new: Entry, point: &[i64]) -> i128
    requires new { IsSmallPart point.now new.row new }
    requires old { IsSmallPart point.now new.row
        (entry_in (core_data program.now) new.row new.column) }
    ensures { result
        ≡ activity_part point.now new.row new -ℤ
        activity_part point.now new.row (entry_in (core_data program.now) new.row new.column) }
{
    let old = Entry {
        row: new.row,
        column: new.column,
        value: core_cell(program, new.row, new.column),
    };
    minus(
        entry_part(new, point, new.row),
        entry_part(old, point, new.row),
    )
}

// By how much a change moves the activity of a row.
fn change_move(program: &Program, change: &Change, point: &[i64], row: u32) -> i128
    requires { IsSmallMove (core_data program.now) point.now row change.now }
    ensures { result ≡ move_of (core_data program.now) point.now row change.now }
{
    match change {
        Change::Cell {
            row: own,
            column,
            value,
        } => {
            if *own == row {
                let new = Entry {
                    row: *own,
                    column: *column,
                    value: *value,
                };
                cell_move(program, new, point)
            } else {
                0
            }
        }
        Change::Cost { .. } | Change::Limits { .. } => 0,
    }
}

/// The activity of a row in a scenario, at a point of the box: by the core's
/// entries, moved by each change.
pub fn activity(run: &Run, scenario: u32, point: &[i64], row: u32) -> i128
    requires inside { InBox (sides run.now.program) point.now }
    requires scenario { scenario < scenarios run.now }
    requires row { row < length run.now.program.rows }
    ensures { result ≡ activity (data_at run.now scenario).entries point.now row }
{
    let mut sum = core_activity(run, point, row);
    for change in changes(run, scenario) {
        sum = plus(sum, change_move(&run.program, change, point, row));
    }
    sum
}
