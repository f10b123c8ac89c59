ghost use Rattle.std.specs.Prelude.{◌≡◌, List};
ghost use Rattle.smps_words.specs.Memory.{MayRefuse, AreSome};
ghost use Rattle.smps_words.specs.FirstPlaces.{Says};
ghost use Rattle.smps_words.specs.TextLines.{TextLine, last_number, text_lines, is_end};
ghost use Rattle.smps_words.specs.declared.core_file.Core.{Core};
ghost use Rattle.smps_words.specs.declared.periods.Periods.{Periods};
ghost use Rattle.stoch_lines.specs.declared.kinds.StochFault.TheVariants.{At};
ghost use Rattle.stoch_lines.specs.declared.kinds.StochKind.TheVariants.{NoEnd};
ghost use Rattle.stoch_lines.specs.StochOutcome.{fault_after, said_meaning, stepped_meaning, stoch_outcome, Gives};

use crate::kinds::{StochFault, StochKind};
use crate::state::State;
use line_core::{Line, LineFault, lines};
use smps_words::{Core, FileLine, Periods, last_number};
use std::alloc::Global;

// The fault of lines without an end.
fn no_end(bytes: &[u8], lines: &[Line]) -> StochFault
    ensures { result ≡ At (last_number (text_lines bytes.now lines.now)) NoEnd }
{
    StochFault::At {
        line: last_number(bytes, lines),
        kind: StochKind::NoEnd,
    }
}

// What the lines say up to the end of the file.
fn read_lines(
    alloc: Global,
    bytes: &[u8],
    lines: &[Line],
    core: &Core,
    periods: &Periods,
) -> Result<State, StochFault>
    ensures { Gives (AreSome lines.now) result
        (stepped_meaning core.now periods.now bytes.now lines.now) }
{
    let mut state = State::new(alloc);
    for line in lines {
        if state.step(core, periods, &FileLine { bytes, line })? {
            return Ok(state);
        }
    }
    Err(no_end(bytes, lines))
}

/// What the lines of a stoch file say up to its end, beside its core and its
/// periods.
///
/// `At` is the first fault of the file. Faults of a line's bytes or length come
/// first wherever they stand, and then each line is judged by the lines before
/// it. `Memory` comes only where a line is read before the first fault of a line's
/// bytes or length.
pub fn read_state(
    alloc: Global,
    bytes: &[u8],
    core: &Core,
    periods: &Periods,
) -> Result<State, StochFault>
    ensures { Gives (MayRefuse bytes.now) result (said_meaning core.now periods.now bytes.now) }
{
    let found = match lines(alloc, bytes) {
        Ok(found) => found,
        Err(LineFault::NotAscii { line }) => return Err(StochFault::At {
            line,
            kind: StochKind::NotAscii,
        }),
        Err(LineFault::TooLong { line }) => return Err(StochFault::At {
            line,
            kind: StochKind::LongLine,
        }),
        Err(LineFault::Memory) => return Err(StochFault::Memory),
    };
    read_lines(alloc, bytes, found.as_slice(), core, periods)
}

/// A law, not a call: the outcome of a stoch file by the places of its lines.
/// Where a line is faulty, it has that fault, and no line before it has a fault
/// or ends the file; the same holds of the line that ends the file; and where
/// there is neither, no line has a fault or ends the file.
pub fn first_fault_is_first()
    ensures { (core : Core) (periods : Periods) (lines : List TextLine) →
        Says (fault_after core periods) is_end lines (stoch_outcome core periods lines) }
{}
