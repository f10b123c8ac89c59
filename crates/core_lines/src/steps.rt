ghost use Rattle.std.specs.Prelude.{◌≡◌, false, true, ◌&&◌, length};
ghost use Rattle.smps_words.specs.TextLines.{text_of};
ghost use Rattle.core_lines.specs.Boxes.{has_empty_box};
ghost use Rattle.core_lines.specs.HeaderParts.{headers_as};
ghost use Rattle.core_lines.specs.Headers.{header_fault, is_ending, section_of_word};
ghost use Rattle.core_lines.specs.Lines.{is_end_header, line_fault, next};
ghost use Rattle.core_lines.specs.States.{KeepsAs, Takes, TakesAs, before_in};
ghost use Rattle.core_lines.specs.Steps.{Steps, fault_at, with_section};

use crate::bound_lines::take_bound;
use crate::boxes::has_empty_box;
use crate::column_lines::take_column;
use crate::headers::{Headers, is_in_place};
use crate::kinds::{CoreFault, CoreKind, Stop};
use crate::row_lines::take_row;
use crate::side_lines::take_side;
use crate::state::State;
use crate::words::{Section, section_named};
use smps_words::FileLine;
use std::alloc::Global;

// Whether a box is empty, at the header that ends the file.
fn ends_badly(alloc: Global, state: &State, section: Section) -> Result<bool, Stop>
    ensures { KeepsAs result
        (λ found. found
        ≡
        (is_ending section && has_empty_box state.now.bounds.bounds
        (length state.now.columns.names))) }
{
    if !matches!(section, Section::End) {
        return Ok(false);
    }
    match has_empty_box(
        alloc,
        state.bounds.bounds.as_slice(),
        state.columns.names.len(),
    ) {
        Ok(found) => Ok(found),
        Err(_) => Err(Stop::Memory),
    }
}

// The section that a header without a fault begins.
fn section_of(alloc: Global, state: &State, line: &FileLine<'_>) -> Result<Section, Stop>
    ensures { TakesAs (header_fault (before_in state.now) (text_of line.now)) result
        (λ section. section ≡ section_of_word (text_of line.now)) }
{
    let section = section_named(line.field(0));
    if matches!(section, Section::Sense) {
        return Err(Stop::Fault(CoreKind::Sense));
    }
    if !is_in_place(state.headers, section) {
        return Err(Stop::Fault(CoreKind::Section));
    }
    if !matches!(section, Section::Name) && line.count() > 1 {
        return Err(Stop::Fault(CoreKind::Fields));
    }
    if matches!(section, Section::Columns) && state.rows.frees.len() < 1 {
        return Err(Stop::Fault(CoreKind::NoObjective));
    }
    match ends_badly(alloc, state, section) {
        Ok(true) => Err(Stop::Fault(CoreKind::EmptyBox)),
        Ok(false) => Ok(section),
        Err(stop) => Err(stop),
    }
}

// The headers behind one more.
fn headers_with(headers: Headers, section: Section) -> Headers
    ensures { headers_as result ≡ with_section (headers_as headers) section }
{
    Headers {
        section,
        rights: headers.rights || matches!(section, Section::Rights),
        ranges: headers.ranges || matches!(section, Section::Ranges),
        bounds: headers.bounds || matches!(section, Section::Bounds),
    }
}

// Takes up a header, or answers its fault. True for the one that ends the file.
fn take_header(alloc: Global, state: &mut State, line: &FileLine<'_>) -> Result<bool, Stop>
    requires { (text_of line.now).header ≡ true }
    ensures { TakesAs (line_fault (before_in state.old) (text_of line.now)) result
        (λ ended. (ended ≡ is_end_header (text_of line.now))
        × (before_in state.new ≡ next (before_in state.old) (text_of line.now))) }
{
    match section_of(alloc, state, line) {
        Ok(section) => {
            state.headers = headers_with(state.headers, section);
            Ok(matches!(section, Section::End))
        }
        Err(stop) => Err(stop),
    }
}

// Takes up a data line, or answers its fault.
fn take_data(alloc: Global, state: &mut State, line: &FileLine<'_>) -> Result<(), Stop>
    requires { (text_of line.now).header ≡ false }
    ensures { Takes (line_fault (before_in state.old) (text_of line.now)) result
        (before_in state.new ≡ next (before_in state.old) (text_of line.now)) }
{
    let rows = &state.rows;
    match state.headers.section {
        Section::Rows => take_row(&mut state.rows, line),
        Section::Columns => take_column(rows, &mut state.columns, line),
        Section::Rights => take_side(alloc, rows, &mut state.rights, line),
        Section::Ranges => take_side(alloc, rows, &mut state.ranges, line),
        Section::Bounds => {
            let columns = &state.columns;
            take_bound(alloc, &columns.names, &mut state.bounds, line)
        }
        Section::Start | Section::Name | Section::Sense | Section::End | Section::Other => {
            Err(Stop::Fault(CoreKind::Section))
        }
    }
}

// The fault of a line by what stopped it.
fn fault_at(number: u64, stop: Stop) -> CoreFault
    ensures { result ≡ fault_at number stop }
{
    match stop {
        Stop::Fault(kind) => CoreFault::At { line: number, kind },
        Stop::Memory => CoreFault::Memory,
    }
}

/// Takes up a line behind those before it, or answers its fault. True for the
/// line that ends the file.
pub fn step(alloc: Global, state: &mut State, line: &FileLine<'_>) -> Result<bool, CoreFault>
    ensures { Steps (before_in state.old) (text_of line.now) result (before_in state.new) }
{
    if line.line.header {
        return match take_header(alloc, state, line) {
            Ok(ended) => Ok(ended),
            Err(stop) => Err(fault_at(line.line.number, stop)),
        };
    }
    match take_data(alloc, state, line) {
        Ok(()) => Ok(false),
        Err(stop) => Err(fault_at(line.line.number, stop)),
    }
}
