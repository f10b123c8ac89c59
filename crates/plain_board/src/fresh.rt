ghost use Rattle.std.specs.Prelude.{◌≡◌, All, IfOk, map};
ghost use Rattle.std.specs.List.{range_with_len};
ghost use Rattle.wide_num.specs.RoomContents.{with_room};
ghost use Rattle.plain_board.specs.Seats.{shown, room_for, IsRoomy};
ghost use Rattle.plain_board.specs.Plain.{hub_view, owner_view, fresh_views};
ghost use Rattle.plain_board.specs.Fresh.{IsWidest, blank_view, fresh_track};

use crate::seat::PlainSeat;
use crate::track::Track;
use std::alloc::{AllocError, Global};
use window_words::Meaning;

/// How many windows there are, how many are leaders', the greatest width and
/// the number of the last entry.
#[derive(Clone, Copy)]
pub struct Sizes {
    pub windows: usize,
    pub leaders: usize,
    pub widest: usize,
    pub most: usize,
}

/// The greatest width of a window, and 0 where there is none.
pub fn widest_of<M: Meaning>(of: &M) -> usize
    ensures { IsWidest (M.wide of.now) (M.count of.now) result }
{
    let mut widest = 0;
    for window in 0..of.windows() {
        let width = of.width(window);
        widest = width.max(widest);
    }
    widest
}

/// How many accepted entries of a window a seat may have: the latest of a
/// leader's, all of another's.
fn accepted_room(sizes: Sizes, window: usize) -> usize
    ensures { result ≡ room_for sizes.leaders sizes.most window }
{
    if window < sizes.leaders {
        1
    } else {
        sizes.most
    }
}

/// No accepted entries of any window, with room for those that there may be.
fn fresh_tracks(alloc: Global, sizes: Sizes) -> Result<Vec<Track>, AllocError>
    ensures { IfOk result (λ tracks. tracks.items
        ≡ map (fresh_track sizes.leaders sizes.most) (range_with_len 0 sizes.windows)) }
{
    let mut tracks = Vec::new(alloc);
    for window in 0..sizes.windows {
        let track = Track::new(alloc, accepted_room(sizes, window))?;
        tracks.push(track)?;
    }
    Ok(tracks)
}

/// A seat that owns no window and knows nothing, with room for so many closed
/// entries.
fn blank_seat(alloc: Global, sizes: Sizes, entries: usize) -> Result<PlainSeat, AllocError>
    ensures view { IfOk result (λ seat. shown seat ≡ blank_view sizes.windows) }
    ensures closed { IfOk result (λ seat. seat.closed ≡ with_room entries) }
    ensures room { IfOk result (IsRoomy sizes.leaders sizes.windows sizes.widest sizes.most) }
{
    let closed = Track::new(alloc, entries)?;
    let words = Track::new(alloc, sizes.widest)?;
    let accepted = fresh_tracks(alloc, sizes)?;
    Ok(PlainSeat {
        hub: false,
        dealt: 0,
        window: None,
        closed,
        pending: None,
        reading: None,
        words,
        accepted,
        stopped: 0,
    })
}

/// The hub's seat: all windows are handed out.
fn hub_seat(alloc: Global, sizes: Sizes) -> Result<PlainSeat, AllocError>
    ensures view { IfOk result (λ seat. shown seat ≡ hub_view sizes.windows) }
    ensures room { IfOk result (IsRoomy sizes.leaders sizes.windows sizes.widest sizes.most) }
{
    let mut seat = blank_seat(alloc, sizes, 0)?;
    seat.hub = true;
    seat.dealt = sizes.windows;
    Ok(seat)
}

/// The seat of a window's owner.
fn owner_seat(alloc: Global, sizes: Sizes, window: usize) -> Result<PlainSeat, AllocError>
    ensures view { IfOk result (λ seat. shown seat ≡ owner_view sizes.windows window) }
    ensures room { IfOk result (IsRoomy sizes.leaders sizes.windows sizes.widest sizes.most) }
{
    let mut seat = blank_seat(alloc, sizes, sizes.most)?;
    seat.window = Some(window);
    Ok(seat)
}

/// The hub's seat, and behind it one for each window.
pub fn fresh_seats(alloc: Global, sizes: Sizes) -> Result<Vec<PlainSeat>, AllocError>
    ensures views { IfOk result (λ seats. map shown seats.items ≡ fresh_views sizes.windows) }
    ensures room { IfOk result
        (λ seats. All (IsRoomy sizes.leaders sizes.windows sizes.widest sizes.most) seats.items) }
{
    let mut seats = Vec::new(alloc);
    let hub = hub_seat(alloc, sizes)?;
    seats.push(hub)?;
    for window in 0..sizes.windows {
        let owner = owner_seat(alloc, sizes, window)?;
        seats.push(owner)?;
    }
    Ok(seats)
}
