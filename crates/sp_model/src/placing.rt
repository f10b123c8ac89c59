ghost use Rattle.std.specs.Prelude.{◌≡◌};
ghost use Rattle.sp_model.specs.Changes.{is_at, is_before, place_of, stands_at};

use boxed_problem::Entry;

/// Whether an entry stands before the place of another, by column and then by row.
pub fn is_before(entry: &Entry, other: &Entry) -> bool
    ensures { result ≡ is_before entry.now other.now }
{
    if entry.column == other.column {
        entry.row < other.row
    } else {
        entry.column < other.column
    }
}

/// How many entries stand before the place of an entry.
pub fn place_of(entries: &[Entry], entry: &Entry) -> usize
    ensures { result ≡ place_of entry.now entries.now }
{
    for i in 0..entries.len() {
        if !is_before(&entries[i], entry) {
            return i;
        }
    }
    entries.len()
}

// Whether two entries are of one place.
fn is_at(entry: &Entry, other: &Entry) -> bool
    ensures { result ≡ is_at entry.now other.now }
{
    entry.column == other.column && entry.row == other.row
}

/// Whether the entry at a place of the list is of the place of another.
pub fn stands_at(entries: &[Entry], at: usize, entry: &Entry) -> bool
    ensures { result ≡ stands_at entry.now entries.now at }
{
    if at < entries.len() {
        is_at(&entries[at], entry)
    } else {
        false
    }
}
