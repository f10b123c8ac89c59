ghost use Rattle.std.specs.Prelude.{IfOk};
ghost use Rattle.smps_words.specs.Memory.{MayRefuse};
ghost use Rattle.smps_stoch.specs.StochFacts.{StochFacts};
ghost use Rattle.smps_stoch.specs.StochMeaning.{stoch_meaning, Gives};

use crate::data::stoch_of;
use crate::stoch::Stoch;
use smps_words::{Core, Periods};
use std::alloc::Global;
use stoch_lines::{StochFault, read_state};

/// What a stoch file says beside its core and its periods.
///
/// `At` is the first fault of the file. Faults of a line's bytes or length come
/// first wherever they stand, and then each line is judged by the lines before
/// it. `Memory` comes only where a line is read before the first fault of a line's
/// bytes or length. Entries are those of a realisation's or a scenario's own lines.
pub fn read_stoch(
    alloc: Global,
    bytes: &[u8],
    core: &Core,
    periods: &Periods,
) -> Result<Stoch, StochFault>
    ensures facts { IfOk result (λ stoch. StochFacts core.now periods.now stoch) }
    ensures meaning { Gives (MayRefuse bytes.now) result
        (stoch_meaning core.now periods.now bytes.now) }
{
    let state = match read_state(alloc, bytes, core, periods) {
        Ok(state) => state,
        Err(fault) => return Err(fault),
    };
    match stoch_of(alloc, state) {
        Ok(stoch) => Ok(stoch),
        Err(_) => Err(StochFault::Memory),
    }
}
