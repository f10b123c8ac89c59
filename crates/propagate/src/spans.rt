ghost use Rattle.std.specs.Prelude.{◌≡◌, ℕ, ◌+◌, ◌<◌, ◌≤◌, IfOk, length};
ghost use Rattle.std.specs.List.{All};
ghost use Rattle.boxed_problem.specs.Data.{problem_of};
ghost use Rattle.boxed_problem.specs.BoxedFacts.{ComesBefore, entry_at};
ghost use Rattle.propagate.specs.SparseParts.{IsOf};
ghost use Rattle.propagate.specs.Spans.{IsBorder, IsFirst, place_at};

use crate::sparse::Sparse;
use boxed_problem::{Boxed, Entry};
use std::alloc::{AllocError, Global};
use wide_num::List;

/// Where the entries of the columns behind column `j` begin, from where those
/// of column `j` begin.
fn next_border(entries: &[Entry], j: usize, place: usize) -> usize
    requires ascending { (k : ℕ) → k + 1 < length entries.now →
        ComesBefore (entry_at entries.now k) (entry_at entries.now (k + 1)) }
    requires border { IsBorder entries.now j place }
    ensures { IsBorder entries.now (j + 1) result }
{
    let mut at = place;
    while at < entries.len() && entries[at].column as usize <= j {
        at += 1;
    }
    at
}

/// Where the entries of each column begin, and where those of the last one end.
fn column_starts(
    alloc: Global,
    columns: usize,
    entries: &[Entry],
) -> Result<List<usize>, AllocError>
    requires ascending { (k : ℕ) → k + 1 < length entries.now →
        ComesBefore (entry_at entries.now k) (entry_at entries.now (k + 1)) }
    ensures long { IfOk result (λ starts. length starts ≡ columns + 1) }
    ensures borders { IfOk result
        (λ starts. (j : ℕ) → j ≤ columns → IsBorder entries.now j (place_at starts j)) }
{
    let mut starts = List::new(alloc);
    let mut place = 0;
    for j in 0..columns {
        starts.push(place)?;
        place = next_border(entries, j, place);
    }
    starts.push(place)?;
    Ok(starts)
}

/// A list of so many times one number.
fn repeated(alloc: Global, number: usize, times: usize) -> Result<List<usize>, AllocError>
    ensures long { IfOk result (λ xs. length xs ≡ times) }
    ensures all { IfOk result (λ xs. (k : ℕ) → k < times → place_at xs k ≡ number) }
{
    let mut xs = List::new(alloc);
    for _ in 0..times {
        xs.push(number)?;
    }
    Ok(xs)
}

/// The first entry of each row, and from each entry the next one of its row;
/// the number of entries where there is none.
#[derive(Drop)]
struct Chains {
    firsts: List<usize>,
    nexts: List<usize>,
}

/// Links the entries of each row, the last one first.
fn row_chains(alloc: Global, rows: usize, entries: &[Entry]) -> Result<Chains, AllocError>
    requires { All (λ e. e.row < rows) entries.now }
    ensures firsts_long { IfOk result (λ chains. length chains.firsts ≡ rows) }
    ensures nexts_long { IfOk result (λ chains. length chains.nexts ≡ length entries.now) }
    ensures firsts { IfOk result
        (λ chains. (i : ℕ) → i < rows → IsFirst entries.now i 0 (place_at chains.firsts i)) }
    ensures nexts { IfOk result
        (λ chains. (k : ℕ) → k < length entries.now →
        IsFirst entries.now (entry_at entries.now k).row (k + 1) (place_at chains.nexts k)) }
{
    let mut firsts = repeated(alloc, entries.len(), rows)?;
    let mut nexts = repeated(alloc, entries.len(), entries.len())?;
    let mut at = entries.len();
    while at > 0 {
        at -= 1;
        let row = entries[at].row as usize;
        let next = firsts.as_slice()[row];
        nexts.set(at, next);
        firsts.set(row, at);
    }
    Ok(Chains { firsts, nexts })
}

/// The entries of a problem by column and by row.
pub fn sparse_of(alloc: Global, problem: &Boxed) -> Result<Sparse, AllocError>
    ensures { IfOk result (λ sparse. IsOf (problem_of problem.now) sparse) }
{
    let columns = List::from_slice(alloc, problem.columns.as_slice())?;
    let rows = List::from_slice(alloc, problem.rows.as_slice())?;
    let entries = List::from_slice(alloc, problem.entries.as_slice())?;
    let starts = column_starts(alloc, columns.len(), entries.as_slice())?;
    let Chains { firsts, nexts } = row_chains(alloc, rows.len(), entries.as_slice())?;
    Ok(Sparse {
        columns,
        rows,
        entries,
        starts,
        firsts,
        nexts,
    })
}
