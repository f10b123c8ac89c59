ghost use Rattle.std.specs.Prelude.{◌≡◌, []};
ghost use Rattle.smps_words.specs.Memory.{MayRefuse, AreSome};
ghost use Rattle.smps_words.specs.TextLines.{text_lines};
ghost use Rattle.core_lines.specs.Headers.{is_rights};
ghost use Rattle.core_lines.specs.Lines.{before_of, bounds_of, columns_of, rows_of, sides_of};
ghost use Rattle.core_lines.specs.Meaning.{Gives, meaning, said_by, said_by_steps};
ghost use Rattle.core_lines.specs.States.{before_in, bounds_in_part, columns_in, rows_in, sides_in_part};

use crate::headers::Headers;
use crate::kinds::{CoreFault, CoreKind};
use crate::parts::{BoundPart, ColumnPart, RowPart, SidePart};
use crate::state::State;
use crate::steps::step;
use crate::words::Section;
use line_core::{Line, LineFault, Names, lines};
use smps_words::{FileLine, last_number};
use std::alloc::Global;
use wide_num::List;

fn no_sides(alloc: Global) -> SidePart
    ensures { sides_in_part result ≡ sides_of is_rights [] }
{
    SidePart {
        set: None,
        values: List::new(alloc),
        flags: List::new(alloc),
    }
}

fn no_columns(alloc: Global) -> ColumnPart
    ensures { columns_in result ≡ columns_of [] }
{
    ColumnPart {
        names: Names::new(alloc),
        flags: List::new(alloc),
        marked: false,
        going: false,
        cells: List::new(alloc),
        marks: List::new(alloc),
    }
}

fn no_bounds(alloc: Global) -> BoundPart
    ensures { bounds_in_part result ≡ bounds_of [] }
{
    BoundPart {
        set: None,
        bounds: List::new(alloc),
        flags: List::new(alloc),
    }
}

fn no_rows(alloc: Global) -> RowPart
    ensures { rows_in result ≡ rows_of [] }
{
    RowPart {
        names: Names::new(alloc),
        kinds: List::new(alloc),
        frees: Names::new(alloc),
    }
}

// What no line has said.
fn start(alloc: Global) -> State
    ensures { before_in result ≡ before_of [] }
{
    State {
        headers: Headers {
            section: Section::Start,
            rights: false,
            ranges: false,
            bounds: false,
        },
        rows: no_rows(alloc),
        columns: no_columns(alloc),
        rights: no_sides(alloc),
        ranges: no_sides(alloc),
        bounds: no_bounds(alloc),
    }
}

// What the lines say, by a state that goes from line to line.
fn read_by_steps(alloc: Global, bytes: &[u8], lines: &[Line]) -> Result<State, CoreFault>
    ensures { Gives (AreSome lines.now) result (said_by_steps (text_lines bytes.now lines.now)) }
{
    let mut state = start(alloc);
    for line in lines {
        let line = FileLine { bytes, line };
        match step(alloc, &mut state, &line) {
            Ok(true) => return Ok(state),
            Ok(false) => {}
            Err(fault) => return Err(fault),
        }
    }
    Err(CoreFault::At {
        line: last_number(bytes, lines),
        kind: CoreKind::NoEnd,
    })
}

// What the lines say, each judged by the lines before it.
fn read_lines(alloc: Global, bytes: &[u8], lines: &[Line]) -> Result<State, CoreFault>
    ensures { Gives (AreSome lines.now) result (said_by (text_lines bytes.now lines.now)) }
{
    read_by_steps(alloc, bytes, lines)
}

/// What a core file says up to its end. A fault comes exactly where the file
/// has one, and is the first of them. Memory is refused only where a line is read
/// before the first fault of the lines.
pub fn read_state(alloc: Global, bytes: &[u8]) -> Result<State, CoreFault>
    ensures { Gives (MayRefuse bytes.now) result (meaning bytes.now) }
{
    match lines(alloc, bytes) {
        Ok(found) => read_lines(alloc, bytes, found.as_slice()),
        Err(LineFault::NotAscii { line }) => Err(CoreFault::At {
            line,
            kind: CoreKind::NotAscii,
        }),
        Err(LineFault::TooLong { line }) => Err(CoreFault::At {
            line,
            kind: CoreKind::LongLine,
        }),
        Err(LineFault::Memory) => Err(CoreFault::Memory),
    }
}
