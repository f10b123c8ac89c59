ghost use Rattle.std.specs.Prelude.{◌≡◌, ◌≤ℤ◌, pos, IfOk};
ghost use Rattle.smps_words.specs.CoreFacts.{max_end};
ghost use Rattle.join_frame.specs.Sourcing.{AreNamed};
ghost use Rattle.join_words.specs.Framing.{frame_of, joined};

use crate::boxes::boxes;
use crate::costs::cost_places;
use crate::entries::all_entries;
use crate::rows::row_places;
use join_words::Frame;
use smps_stoch::Stoch;
use smps_words::{Core, Periods};
use std::alloc::{AllocError, Global};

/// The boxes of the columns with missing ends filled in, and the decimal places
/// by which the costs and each row are scaled.
pub fn frame(
    alloc: Global,
    core: &Core,
    periods: &Periods,
    stoch: &Stoch,
    missing: i64,
) -> Result<Frame, AllocError>
    requires some { pos 1 ≤ℤ missing }
    requires most { missing ≤ℤ pos max_end }
    requires named { AreNamed core.now stoch.now }
    ensures { IfOk result
        (λ frame. frame ≡ frame_of (joined core.now periods.now stoch.now missing)) }
{
    let sides = boxes(alloc, core.columns.as_slice(), missing)?;
    let entries = all_entries(alloc, stoch)?;
    let cost_places = cost_places(core, &sides, entries.as_slice());
    let row_places = row_places(alloc, core, &sides, entries.as_slice())?;
    Ok(Frame {
        sides,
        cost_places,
        row_places,
    })
}
