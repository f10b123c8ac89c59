ghost use Rattle.std.specs.Prelude.{◌≡◌, ℕ, List, IfOk};
ghost use Rattle.smps_words.specs.FirstPlaces.{Says};
ghost use Rattle.smps_words.specs.Memory.{MayRefuse};
ghost use Rattle.schedule_lines.specs.Schedules.{crew_of, fault_behind, never, schedule_meaning, word_outcome, words_in, Gives, IsScheduleOf, LineWord};
ghost use Rattle.schedule_lines.specs.ReadingSteps.{Reads};
ghost use Rattle.schedule_lines.specs.declared.schedule.Crew.{Crew};

use crate::reading::Reading;
use crate::schedule::{Crew, Schedule};
use crate::schedule_fault::{ScheduleFault, ScheduleKind};
use line_core::{Line, LineFault, lines};
use std::alloc::Global;

fn read_lines(
    alloc: Global,
    crew: Crew,
    bytes: &[u8],
    lines: &[Line],
) -> Result<Reading, ScheduleFault>
    ensures { Reads crew (words_in bytes.now lines.now) result }
{
    let mut reading = Reading::new(alloc);
    for line in lines {
        reading.add_line(crew, bytes, line)?;
    }
    Ok(reading)
}

/// The schedule of a file beside so many ranks and spokes: the turns of its
/// words, in order. A file without words is an empty schedule.
///
/// `At` is the first fault of the file. Faults of a line's bytes or length come
/// first wherever they stand, and then each word is judged by the words before
/// it. `Memory` comes only where a line is read before the first fault of the
/// lines.
pub fn read_schedule(
    alloc: Global,
    bytes: &[u8],
    ranks: usize,
    spokes: usize,
) -> Result<Schedule, ScheduleFault>
    ensures exact { Gives (MayRefuse bytes.now) result
        (schedule_meaning (crew_of ranks spokes) bytes.now) }
    ensures within { IfOk result (λ schedule. IsScheduleOf (crew_of ranks spokes) schedule.turns) }
{
    let found = match lines(alloc, bytes) {
        Ok(found) => found,
        Err(LineFault::NotAscii { line }) => return Err(ScheduleFault::At {
            line,
            kind: ScheduleKind::NotAscii,
        }),
        Err(LineFault::TooLong { line }) => return Err(ScheduleFault::At {
            line,
            kind: ScheduleKind::LongLine,
        }),
        Err(LineFault::Memory) => return Err(ScheduleFault::Memory),
    };
    let crew = Crew { ranks, spokes };
    let reading = read_lines(alloc, crew, bytes, found.as_slice())?;
    let Reading { turns, .. } = reading;
    Ok(Schedule { turns })
}

/// A law, not a call: the words of a file by their places. A faulty word has
/// its fault, and no word before it has one; and where there is no faulty word,
/// no word has a fault.
pub fn first_fault_is_first()
    ensures { (crew : Crew) (words : List LineWord) →
        Says (fault_behind crew) never words (word_outcome crew words) }
{}
