ghost use Rattle.std.specs.Prelude.{◌≡◌, ℕ, ◌+◌, ◌^◌, ◌<◌, ◌≤◌, ◌≤ℤ◌, ◌↔◌, IsTrue, IfNone, IfSome, length, pos};
ghost use Rattle.std.specs.List.{All};
ghost use Rattle.boxed_problem.specs.BoxedFacts.{ComesBefore, IsBoxed, entry_at, row_size};
ghost use Rattle.boxed_problem.specs.Parts.{HasParts};

use crate::magnitude::{MAX_PART, row_size_upto, value_size_upto};
use crate::parts::{Entry, Limits, Side};
use crate::problem::Boxed;
use wide_num::List;

/// Whether no side is empty.
fn are_filled(columns: &[Side]) -> bool
    ensures { IsTrue result ↔ All (λ s. s.lower ≤ℤ s.upper) columns.now }
{
    columns.iter().all(|side| side.lower <= side.upper)
}

/// Whether no number is negative.
fn are_convex(square: &[i128]) -> bool
    ensures { IsTrue result ↔ All (λ q. pos 0 ≤ℤ q) square.now }
{
    square.iter().all(|q| *q >= 0)
}

/// Whether the rows and columns of all entries are there.
fn are_placed(entries: &[Entry], rows: usize, columns: usize) -> bool
    ensures { IsTrue result ↔ All (λ e. (e.row < rows) × (e.column < columns)) entries.now }
{
    entries.iter().all(|entry| (entry.row as usize) < rows && (entry.column as usize) < columns)
}

/// Whether an entry stands before another in the order of columns and rows.
fn comes_before(first: Entry, second: Entry) -> bool
    ensures { IsTrue result ↔ ComesBefore first second }
{
    first.column < second.column || (first.column == second.column && first.row < second.row)
}

/// Whether each entry stands before the next one in the order of columns and rows.
fn are_ascending(entries: &[Entry]) -> bool
    ensures { IsTrue result
        ↔
        ((k : ℕ) → k + 1 < length entries.now →
        ComesBefore (entry_at entries.now k) (entry_at entries.now (k + 1))) }
{
    for next in 1..entries.len() {
        if !comes_before(entries[next - 1], entries[next]) {
            return false;
        }
    }
    true
}

/// Whether the magnitude of each row is small enough.
fn rows_fit(columns: &[Side], rows: &[Limits], entries: &[Entry]) -> bool
    requires { All (λ e. e.column < length columns.now) entries.now }
    ensures { IsTrue result
        ↔ ((i : ℕ) → i < length rows.now → row_size columns.now rows.now entries.now i ≤ 2 ^ 122) }
{
    for row in 0..rows.len() {
        if row_size_upto(columns, rows, entries, row, MAX_PART).is_none() {
            return false;
        }
    }
    true
}

/// Whether the parts keep the facts of a problem.
fn are_parts(
    columns: &[Side],
    rows: &[Limits],
    entries: &[Entry],
    constant: i128,
    line: &[i128],
    square: &[i128],
) -> bool
    ensures { IsTrue result ↔ IsBoxed columns.now rows.now entries.now constant line.now
        square.now }
{
    if line.len() != columns.len() || square.len() != columns.len() {
        return false;
    }
    if !are_filled(columns) || !are_convex(square) {
        return false;
    }
    if !are_placed(entries, rows.len(), columns.len()) || !are_ascending(entries) {
        return false;
    }
    value_size_upto(columns, constant, line, square, MAX_PART).is_some()
        && rows_fit(columns, rows, entries)
}

impl Boxed {
    /// The problem of these parts. None comes exactly where they don't keep
    /// the facts of a problem: one number of `line` and of `square` for each
    /// column, no empty box, no negative number in `square`, entries of rows
    /// and columns that are there, in ascending order of column and then of
    /// row and each pair once, and no magnitude above 2^122.
    pub fn new(
        columns: List<Side>,
        rows: List<Limits>,
        entries: List<Entry>,
        constant: i128,
        line: List<i128>,
        square: List<i128>,
    ) -> Option<Boxed>
        ensures some { IfSome result (λ b. HasParts b columns rows entries constant line square) }
        ensures none { IfNone result (IsBoxed columns rows entries constant line square → ⊥) }
    {
        let kept = are_parts(
            columns.as_slice(),
            rows.as_slice(),
            entries.as_slice(),
            constant,
            line.as_slice(),
            square.as_slice(),
        );
        if !kept {
            return None;
        }
        Some(Boxed {
            columns,
            rows,
            entries,
            constant,
            line,
            square,
        })
    }
}
