ghost use Rattle.std.specs.Prelude.{◌≡◌, ◌<◌, ◌≤◌, [], length};
ghost use Rattle.log_closing.specs.Closings.{found_in, is_earlier, logs_of, multipliers_behind, nearer};

use log_words::{Backing, SpokeEnd, SpokeLog};
use sp_model::Multipliers;
use wide_num::{List, Room};

/// Multipliers whose dual value is the lower bound, with the number of their put.
#[derive(Drop)]
pub struct Found {
    pub put: u64,
    pub multipliers: Multipliers,
}

/// The spokes' logs, and the multipliers that were found among what they hand over.
#[derive(Drop)]
pub struct Gathered {
    pub logs: Room<SpokeLog>,
    pub found: Option<Found>,
}

// Whether a put comes before the one that was found, if one was.
fn is_earlier(found: &Option<Found>, put: u64) -> bool
    ensures { result ≡ is_earlier found.now put }
{
    match found {
        Some(found) => put < found.put,
        None => true,
    }
}

// What a spoke hands over, where it has the bound and its put comes before the
// one that was found.
fn nearer(found: Option<Found>, best: Option<Backing>, bound: i128) -> Option<Found>
    ensures { result ≡ nearer bound found best }
{
    match best {
        Some(
            Backing::Lower {
                put,
                value,
                multipliers,
            },
        ) => {
            if value == bound && is_earlier(&found, put) {
                Some(Found { put, multipliers })
            } else {
                found
            }
        }
        Some(Backing::Upper { .. }) => found,
        None => found,
    }
}

/// The spokes' logs, and the multipliers of the first put to which one of them
/// replied with a bound, as they hand them over.
pub fn gather(ends: List<SpokeEnd>, logs: Room<SpokeLog>, bound: i128) -> Gathered
    requires empty { logs.items ≡ [] }
    requires room { length ends ≤ logs.spare }
    ensures logs { result.logs.items ≡ logs_of ends }
    ensures found { result.found ≡ found_in bound ends }
{
    let mut logs = logs;
    let mut found = None;
    let count = ends.len();
    let mut rest = ends.into_vec();
    for turn in 0..count {
        let _turn = turn;
        let SpokeEnd { log, best } = rest.remove(0);
        logs.push(log);
        found = nearer(found, best, bound);
    }
    Gathered { logs, found }
}

/// The multipliers of a lower bound: 0 for the first one, else those that were
/// found.
pub fn backing(nothing: Multipliers, first: i128, lower: i128, found: Option<Found>) -> Multipliers
    ensures { result ≡ multipliers_behind nothing first lower found }
{
    match found {
        Some(found) => {
            if lower == first {
                nothing
            } else {
                found.multipliers
            }
        }
        None => nothing,
    }
}
