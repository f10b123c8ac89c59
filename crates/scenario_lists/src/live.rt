ghost use Rattle.std.specs.Prelude.{◌≡◌, ◌++◌, false, slice_index_or, OnOk};
ghost use Rattle.scenario_lists.specs.Live.{live_entries, stays_in};

use smps_stoch::{StochEntry, StochPlace};
use std::alloc::AllocError;

// Whether a column stays; one that isn't there doesn't.
fn is_live(live: &[bool], column: usize) -> bool
    ensures { result ≡ slice_index_or live.now column false }
{
    if column < live.len() {
        live[column]
    } else {
        false
    }
}

// Whether a place stays: that of a column with it, and each right-hand side.
fn stays(live: &[bool], place: StochPlace) -> bool
    ensures { result ≡ stays_in live.now place }
{
    match place {
        StochPlace::Cost(column) => is_live(live, column as usize),
        StochPlace::Cell(_, column) => is_live(live, column as usize),
        StochPlace::Right(_) => true,
    }
}

/// Appends those of some entries that stay.
pub fn append_live(
    entries: &mut Vec<StochEntry>,
    live: &[bool],
    added: &[StochEntry],
) -> Result<(), AllocError>
    ensures { OnOk result
        (entries.new.items ≡ entries.old.items ++ live_entries live.now added.now) }
{
    for entry in added {
        if stays(live, entry.place) {
            entries.push(*entry)?;
        }
    }
    Ok(())
}
