ghost use Rattle.std.specs.Prelude.{◌≡◌, ◌<◌, ◌≤◌, length, [], ◌∷◌, ◌++◌, IfOk, if◌then◌else◌, OnOk};
ghost use Rattle.std.specs.List.{All};
ghost use Rattle.std.specs.List.Sorted.{IsNonDecreasingBy, IsPermutation};
ghost use Rattle.smps_words.specs.CoreFacts.{max_rows};
ghost use Rattle.smps_core.specs.CoreData.{AreEntriesOf, entries_of, entry_of, is_entry};
ghost use Rattle.smps_core.specs.Entries.{place_number, AreApart};

use core_lines::Cell;
use smps_words::CoreEntry;
use std::alloc::{AllocError, Global};
use wide_num::List;

// Appends the entry of a pair, unless its row is the objective.
fn push_entry(entries: &mut List<CoreEntry>, cell: Cell) -> Result<(), AllocError>
    ensures { OnOk result
        (entries.new ≡ (if is_entry cell then entries.old ++ entry_of cell ∷ [] else entries.old)) }
{
    if cell.row == 0 {
        return Ok(());
    }
    entries.push(CoreEntry {
        row: cell.row - 1,
        column: cell.column,
        value: cell.value,
        line: cell.line,
    })
}

// The entries in the order of their lines, in room that is made at once.
fn entries_in(alloc: Global, cells: &[Cell]) -> Result<List<CoreEntry>, AllocError>
    ensures { IfOk result (λ entries. entries ≡ entries_of cells.now) }
{
    let mut entries = List::from_vec(Vec::with_capacity(alloc, cells.len())?);
    for cell in cells {
        push_entry(&mut entries, *cell)?;
    }
    Ok(entries)
}

// A number that ascends by column, and by row within a column.
fn place_number(entry: &CoreEntry) -> u64
    ensures { result ≡ place_number entry.now }
{
    u64::from(entry.column) * 4_294_967_296 + u64::from(entry.row)
}

// Where the entries of one column end that stand together from a place on.
fn column_end(entries: &[CoreEntry], start: usize) -> usize
    requires { start < length entries.now }
    ensures after { start < result }
    ensures within { result ≤ length entries.now }
{
    let column = entries[start].column;
    let mut end = start + 1;
    while end < entries.len() && entries[end].column == column {
        end += 1;
    }
    end
}

// Sorts the entries between two places by row.
fn sort_part(entries: &mut [CoreEntry], start: usize, end: usize)
    requires ordered { start ≤ end }
    requires within { end ≤ length entries.old }
    ensures moved { IsPermutation entries.old entries.new }
    ensures long { length entries.new ≡ length entries.old }
{
    entries[start..end].sort_unstable_by_key(|entry| entry.row);
}

// Sorts the entries of each column by row, as far as they stand together.
fn sort_columns(entries: &mut [CoreEntry])
    ensures { IsPermutation entries.old entries.new }
{
    let count = entries.len();
    let mut start = 0;
    while start < count {
        let end = column_end(entries, start);
        sort_part(entries, start, end);
        start = end;
    }
}

// The same entries, those of each column that stand together by row.
fn by_columns(entries: List<CoreEntry>) -> Vec<CoreEntry>
    ensures { IsPermutation entries result.items }
{
    let mut items = entries.into_vec();
    sort_columns(items.as_mut_slice());
    items
}

// The same entries by their places. Where the columns ascend, as in a file they do, all
// are in order already once each column is, and the sort ends after one look at them.
fn sorted(entries: List<CoreEntry>) -> List<CoreEntry>
    ensures same { IsPermutation entries result }
    ensures rise { IsNonDecreasingBy place_number result }
{
    let mut items = by_columns(entries);
    items.sort_unstable_by_key(|entry| place_number(entry));
    List::from_vec(items)
}

/// The entries in ascending order of column, and of row within a column.
pub fn entries_of(alloc: Global, cells: &[Cell]) -> Result<List<CoreEntry>, AllocError>
    requires apart { AreApart cells.now }
    requires placed { All (λ c. c.row ≤ max_rows) cells.now }
    ensures { IfOk result (λ entries. AreEntriesOf cells.now entries) }
{
    let entries = entries_in(alloc, cells)?;
    Ok(sorted(entries))
}
