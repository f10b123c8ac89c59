ghost use Rattle.std.specs.Prelude.{◌≡◌, ◌<◌, ◌≤◌, ◌^◌, length, nat_lt};
ghost use Rattle.smps_words.specs.Stages.{stage_in};
ghost use Rattle.smps_join.specs.Lesser.{lesser};
ghost use Rattle.join_words.specs.Parts.{IsFirstEarly, firsts_of, is_early};
ghost use Rattle.join_words.specs.RunOf.{nonleaf_in};

use smps_words::{CoreEntry, Periods};
use std::cmp;

// Whether an entry's column has a later stage than its row.
fn is_early(periods: &Periods, entry: &CoreEntry) -> bool
    ensures { result ≡ is_early (firsts_of periods.now) entry.now }
{
    periods.stage_of_row(entry.row) < periods.stage_of_column(entry.column)
}

// The lesser one of a line and another, if there is one.
fn lesser(least: Option<u64>, line: u64) -> u64
    ensures { result ≡ lesser least line }
{
    match least {
        Some(least) => cmp::min(least, line),
        None => line,
    }
}

/// The first line that says an entry whose column has a later stage than its
/// row. It takes no memory.
pub fn first_early(periods: &Periods, entries: &[CoreEntry]) -> Option<u64>
    ensures { IsFirstEarly (firsts_of periods.now) entries.now result }
{
    let mut least = None;
    for entry in entries {
        if is_early(periods, entry) {
            least = Some(lesser(least, entry.line));
        }
    }
    least
}

// Whether a column has a stage before the last.
fn is_nonleaf(periods: &Periods, j: u32) -> bool
    ensures { result ≡ nat_lt (stage_in periods.now.columns j) (length periods.now.columns) }
{
    usize::from(periods.stage_of_column(j)) < periods.columns.len()
}

/// How many of the first columns have a stage before the last.
pub fn nonleaf(periods: &Periods, columns: u32) -> u32
    ensures { result ≡ nonleaf_in (firsts_of periods.now) columns }
{
    let mut count = 0;
    for j in 0..columns {
        if is_nonleaf(periods, j) {
            count += 1;
        }
    }
    count
}
