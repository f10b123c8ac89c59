ghost use Rattle.std.specs.Prelude.{◌≡◌, ◌≤◌, true, false, if◌then◌else◌, length, pos};
ghost use Rattle.std.specs.List.Sorted.{IsPartitionPoint};
ghost use Rattle.boxed_problem.specs.declared.parts.Entry.{Entry};
ghost use Rattle.sp_model.specs.Changes.{core_data, is_at, is_before};
ghost use Rattle.sp_model.specs.Values.{cell_in};
ghost use Rattle.sp_model.proofs.EntryOrder.{IsChain};
ghost use Rattle.reach_core.specs.Places.{AreOrdered};

use boxed_problem::Entry;
use sp_model::{Program, is_before};

// The value of an entry at the place of another, 0 at another place.
fn value_at(entry: &Entry, other: &Entry) -> i128
    ensures { result ≡ if is_at entry.now other.now then entry.now.value else pos 0 }
{
    if entry.column == other.column && entry.row == other.row {
        entry.value
    } else {
        0
    }
}

// How many entries of the core stand before the place of another.
fn place_of(program: &Program, other: &Entry) -> usize
    requires { AreOrdered program.now }
    ensures there { result ≤ length program.now.entries }
    ensures parted { IsPartitionPoint
        (λ e. is_before e other.now ≡ true)
        (λ e. is_before e other.now ≡ false) program.now.entries result }
{
    program
        .entries
        .as_slice()
        .partition_point(|entry| is_before(entry, other))
}

/// The value of the core's entry of a row and a column, 0 where there is none.
pub fn core_cell(program: &Program, row: u32, column: u32) -> i128
    requires { AreOrdered program.now }
    ensures { result ≡ cell_in (core_data program.now) row column }
{
    let other = Entry {
        row,
        column,
        value: 0,
    };
    let at = place_of(program, &other);
    let entries = program.entries.as_slice();
    if at < entries.len() {
        value_at(&entries[at], &other)
    } else {
        0
    }
}
