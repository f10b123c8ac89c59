ghost use Rattle.std.specs.Prelude.{◌≡◌, ◌≤◌, [], length, Err, List, IfErr, IfOk};
ghost use Rattle.smps_words.specs.Memory.{MayRefuse};
ghost use Rattle.smps_words.specs.PeriodFacts.{min_periods};
ghost use Rattle.smps_words.specs.FirstPlaces.{Says};
ghost use Rattle.smps_words.specs.TextLines.{TextLine, last_number, text_lines, is_end};
ghost use Rattle.smps_time.specs.Reading.{before_in, Keeps, ReadsLines};
ghost use Rattle.smps_time.specs.TimeAnswers.{data_of, names_of, periods_in, rows_at, time_meaning, time_outcome, Gives};
ghost use Rattle.smps_time.specs.declared.time_fault.TimeFault.TheVariants.{At, Memory};
ghost use Rattle.smps_time.specs.declared.time_fault.TimeKind.TheVariants.{NoEnd};
ghost use Rattle.smps_time.specs.TimeFile.{CoreNames, fault_after};

use crate::time_fault::{TimeFault, TimeKind};
use crate::time_reading::Reading;
use line_core::{Line, LineFault, lines};
use smps_words::{Core, FileLine, Periods, last_number};
use std::alloc::{AllocError, Global};
use wide_num::List;

// The fault of lines without an end.
fn no_end(bytes: &[u8], lines: &[Line]) -> TimeFault
    ensures { result ≡ At (last_number (text_lines bytes.now lines.now)) NoEnd }
{
    TimeFault::At {
        line: last_number(bytes, lines),
        kind: TimeKind::NoEnd,
    }
}

// What the lines say up to the end of the file.
fn read_lines(
    alloc: Global,
    bytes: &[u8],
    lines: &[Line],
    core: &Core,
) -> Result<Reading, TimeFault>
    ensures reads { ReadsLines core.now bytes.now lines.now result }
    ensures keeps { IfOk result Keeps }
    ensures some { IfOk result (λ reading. min_periods ≤ length reading.names) }
{
    let mut reading = Reading::new(alloc);
    for line in lines {
        if reading.step(core, &FileLine { bytes, line })? {
            return Ok(reading);
        }
    }
    Err(no_end(bytes, lines))
}

// The first constraint row of each place.
fn rows_at(alloc: Global, places: &[u32]) -> Result<List<u32>, AllocError>
    ensures { IfOk result (λ rows. rows ≡ rows_at places.now) }
{
    let mut rows = List::new(alloc);
    for place in places {
        rows.push(place.saturating_sub(1))?;
    }
    Ok(rows)
}

// The periods that the lines up to the end say.
fn periods_in(alloc: Global, reading: Reading) -> Result<Periods, TimeFault>
    requires keeps { Keeps reading }
    requires some { min_periods ≤ length reading.names }
    ensures ok { IfOk result (λ periods. data_of periods ≡ periods_in (before_in reading)) }
    ensures err { IfErr result (λ fault. fault ≡ Memory) }
{
    let Ok(rows) = rows_at(alloc, reading.places.as_slice()) else {
        return Err(TimeFault::Memory);
    };
    let Reading { names, columns, .. } = reading;
    Ok(Periods {
        names,
        columns,
        rows,
    })
}

/// The periods of a time file beside its core: their names, and the first
/// column and the first constraint row of each.
///
/// `At` is the first fault of the file. Faults of a line's bytes or length
/// come first wherever they stand, and then each line is judged by the lines
/// before it. `Memory` comes only where a line is read before the first fault
/// of the lines.
pub fn read_time(alloc: Global, bytes: &[u8], core: &Core) -> Result<Periods, TimeFault>
    ensures { Gives (MayRefuse bytes.now) result (time_meaning (names_of core.now) bytes.now) }
{
    let found = match lines(alloc, bytes) {
        Ok(found) => found,
        Err(LineFault::NotAscii { line }) => return Err(TimeFault::At {
            line,
            kind: TimeKind::NotAscii,
        }),
        Err(LineFault::TooLong { line }) => return Err(TimeFault::At {
            line,
            kind: TimeKind::LongLine,
        }),
        Err(LineFault::Memory) => return Err(TimeFault::Memory),
    };
    let reading = read_lines(alloc, bytes, found.as_slice(), core)?;
    periods_in(alloc, reading)
}

/// A law, not a call: the outcome of a time file by the places of its lines.
/// Where a line is faulty, it has that fault, and no line before it has a fault
/// or ends the file; the same holds of the line that ends the file; and where
/// there is neither, no line has a fault or ends the file.
pub fn first_fault_is_first()
    ensures { (core : CoreNames) (lines : List TextLine) →
        Says (fault_after core) is_end lines (time_outcome core lines) }
{}
