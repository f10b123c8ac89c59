ghost use Rattle.std.specs.Prelude.{◌≡◌, ◌≤◌, ◌<◌, IfOk, length};
ghost use Rattle.std.specs.List.{All};
ghost use Rattle.smps_stoch.specs.StochFacts.{StochFacts};
ghost use Rattle.sp_model.specs.RunFacts.{OptionFacts};
ghost use Rattle.join_words.specs.Framing.{frame_of};
ghost use Rattle.join_words.specs.Joining.{source_of};

use join_frame::frame;
use join_words::Frame;
use smps_stoch::Stoch;
use smps_words::{Core, Periods};
use sp_model::Options;
use std::alloc::{AllocError, Global};
use wide_num::List;

// The places of a frame's rows.
fn places_of(frame: Frame) -> List<u8>
    ensures { result ≡ frame.row_places }
{
    let Frame { row_places, .. } = frame;
    row_places
}

/// The decimal places by which the rows of the run are scaled, one for each row.
pub fn row_places(
    alloc: Global,
    core: &Core,
    periods: &Periods,
    stoch: &Stoch,
    options: &Options,
) -> Result<List<u8>, AllocError>
    requires options { OptionFacts options.now }
    requires columns { 0 < length core.now.columns }
    requires stoch { StochFacts core.now periods.now stoch.now }
    ensures exact { IfOk result
        (λ places. places
        ≡ (frame_of (source_of core.now periods.now stoch.now options.now)).row_places) }
    ensures few { IfOk result (λ places. All (λ p. p ≤ 9) places) }
    ensures whole { IfOk result (λ places. length places ≡ length core.now.rows) }
{
    let frame = frame(alloc, core, periods, stoch, options.missing)?;
    Ok(places_of(frame))
}
