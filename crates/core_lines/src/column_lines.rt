ghost use Rattle.std.specs.Prelude.{◌≡◌, ◌+◌, ◌<◌, ◌≤◌, ◌∷◌, [], ◌++◌, Some, None, true, false, is_none, length, IfOk, IfSome, OnOk, OnSome, if◌then◌else◌};
ghost use Rattle.std.specs.List.{list_any};
ghost use Rattle.std.specs.Str.{bytes_eq};
ghost use Rattle.line_core.specs.Names.{number_of};
ghost use Rattle.smps_words.specs.CoreFacts.{IsShort, max_columns};
ghost use Rattle.smps_words.specs.Tables.{Passes};
ghost use Rattle.smps_words.specs.TextLines.{field, text_of};
ghost use Rattle.core_lines.specs.ColumnLines.{cell_for, column_fault, column_number, columns_next, grown, has_cell, has_second, is_cell_of, is_marker, marker_fault, pair_fault, pairs_fault, repeats, stands_together};
ghost use Rattle.core_lines.specs.ColumnParts.{ArePairsPlaced, ArePairsShort, CanTake, IsColumnLine, IsLast, column_begun, repeats_pairs, second_at, taken};
ghost use Rattle.core_lines.specs.Parts.{RowsSaid};
ghost use Rattle.core_lines.specs.States.{Keeps, Takes, columns_in, pair_at, rows_in, with_cells};
ghost use Rattle.core_lines.specs.Words.{begin_word, marker_word};

use crate::cells::Cell;
use crate::growing::grow_marks;
use crate::kinds::{CoreKind, Stop};
use crate::pairs::{RowPair, is_same_row, pair_of};
use crate::parts::{ColumnPart, RowPart};
use smps_words::FileLine;
use wide_num::same;

/// The greatest number of columns.
const MAX_COLUMNS: usize = 5000;

/// A column's line: the number of the column, whether it begins there, and the
/// pairs.
#[derive(Clone, Copy, Drop)]
pub struct ColumnLine {
    pub column: u32,
    pub begins: bool,
    pub first: RowPair,
    pub second: Option<RowPair>,
}

/// Whether a line begins or ends the integer columns.
pub fn is_marker(line: &FileLine<'_>) -> bool
    ensures { result ≡ is_marker (text_of line.now) }
{
    same(line.field(1), b"'MARKER'")
}

// Whether a marker begins the integer columns.
fn marks_integer(line: &FileLine<'_>) -> Result<bool, CoreKind>
    ensures { Passes (marker_fault (text_of line.now)) result
        (λ begins. begins ≡ bytes_eq (field 2 (text_of line.now)) begin_word) }
{
    if line.count() != 3 {
        return Err(CoreKind::Fields);
    }
    let begins = same(line.field(2), b"'INTORG'");
    if !(begins || same(line.field(2), b"'INTEND'")) {
        return Err(CoreKind::Fields);
    }
    Ok(begins)
}

// Whether a row that isn't ignored has an entry in the last column, or in the next one.
fn has_cell(columns: &ColumnPart, row: Option<u32>, column: u32) -> bool
    requires { IsLast columns.now.names column }
    ensures { result ≡ has_cell columns.now.cells row column }
{
    let Some(row) = row else {
        return false;
    };
    match columns.marks.as_slice().get(row as usize) {
        Some(mark) => *mark == column + 1,
        None => false,
    }
}

// The second pair of a line, if it has one.
fn second_of(rows: &RowPart, line: &FileLine<'_>) -> Result<Option<RowPair>, CoreKind>
    ensures exact { Passes
        (if has_second (text_of line.now) then pair_fault (rows_in rows.now) 3 (text_of line.now)
        else None) result (λ pair. pair ≡ second_at (rows_in rows.now) (text_of line.now)) }
    ensures short { IfOk result (λ pair. IfSome pair (λ p. IsShort p.value)) }
    ensures placed { IfOk result
        (λ pair. IfSome pair (λ p. IfSome p.row (λ row. row ≤ length rows.now.names))) }
{
    if line.count() != 5 {
        return Ok(None);
    }
    let pair = pair_of(rows, line, 3)?;
    Ok(Some(pair))
}

// The number of the column of a line, and whether it begins there.
fn column_of(columns: &ColumnPart, line: &FileLine<'_>) -> (u32, bool)
    ensures column { result.0 ≡ column_number columns.now.names (field 0 (text_of line.now)) }
    ensures begins { result.1 ≡ is_none (number_of (field 0 (text_of line.now)) columns.now.names) }
    ensures there { result.0 ≤ length columns.now.names }
    ensures at_end { result.1 ≡ true → result.0 ≡ length columns.now.names }
{
    match columns.names.find(line.field(0)) {
        Some(column) => (column, false),
        None => (columns.names.len() as u32, true),
    }
}

// Whether a line has an entry that is there already.
fn repeats(columns: &ColumnPart, parsed: &ColumnLine) -> bool
    requires { IsLast columns.now.names parsed.now.column }
    ensures { result ≡ repeats_pairs columns.now.cells parsed.now }
{
    if has_cell(columns, parsed.first.row, parsed.column) {
        return true;
    }
    match parsed.second {
        None => false,
        Some(second) => {
            has_cell(columns, second.row, parsed.column)
                || is_same_row(parsed.first.row, second.row)
        }
    }
}

// The column and the pairs of a line without a fault.
fn column_line_of(
    rows: &RowPart,
    columns: &ColumnPart,
    line: &FileLine<'_>,
) -> Result<ColumnLine, CoreKind>
    ensures exact { Passes
        (pairs_fault (rows_in rows.now) (columns_in columns.now) (text_of line.now)) result
        (λ parsed. IsColumnLine (rows_in rows.now) (columns_in columns.now) (text_of line.now)
        parsed) }
    ensures can { IfOk result (CanTake (columns_in columns.now)) }
    ensures short { IfOk result ArePairsShort }
    ensures placed { IfOk result (ArePairsPlaced (length rows.now.names)) }
{
    let count = line.count();
    if !(count == 3 || count == 5) {
        return Err(CoreKind::Fields);
    }
    let (column, begins) = column_of(columns, line);
    if begins && columns.names.len() >= MAX_COLUMNS {
        return Err(CoreKind::Limit);
    }
    let first = pair_of(rows, line, 1)?;
    let second = second_of(rows, line)?;
    if !(begins || (columns.going && column as usize + 1 == columns.names.len())) {
        return Err(CoreKind::Twice);
    }
    let parsed = ColumnLine {
        column,
        begins,
        first,
        second,
    };
    if repeats(columns, &parsed) {
        return Err(CoreKind::Twice);
    }
    Ok(parsed)
}

// Makes place for the mark of a row.
fn grow_for(columns: &mut ColumnPart, row: u32) -> Result<(), Stop>
    ensures place { Keeps result (row < length columns.new.marks) }
    ensures same { columns_in columns.new ≡ columns_in columns.old }
{
    match grow_marks(&mut columns.marks, row as usize + 1) {
        Ok(()) => Ok(()),
        Err(_) => Err(Stop::Memory),
    }
}

// Appends a cell of the last column, for whose mark there is place.
fn push_cell(columns: &mut ColumnPart, cell: Cell) -> Result<(), Stop>
    requires place { cell.row < length columns.old.marks }
    requires last { cell.column + 1 ≡ length columns.old.names }
    requires fresh { list_any (is_cell_of cell.row cell.column) columns.old.cells ≡ false }
    requires short { IsShort cell.value }
    ensures { Keeps result
        (columns_in columns.new
        ≡ with_cells (columns_in columns.old) (columns.old.cells ++ cell ∷ [])) }
{
    match columns.cells.push(cell) {
        Ok(()) => {
            let _ = columns.marks.set(cell.row as usize, cell.column + 1);
            Ok(())
        }
        Err(_) => Err(Stop::Memory),
    }
}

// Appends a cell of the last column.
fn add_cell(columns: &mut ColumnPart, cell: Cell) -> Result<(), Stop>
    requires last { cell.column + 1 ≡ length columns.old.names }
    requires fresh { list_any (is_cell_of cell.row cell.column) columns.old.cells ≡ false }
    requires short { IsShort cell.value }
    ensures { Keeps result
        (columns_in columns.new
        ≡ with_cells (columns_in columns.old) (columns.old.cells ++ cell ∷ [])) }
{
    grow_for(columns, cell.row)?;
    push_cell(columns, cell)
}

// Appends the cell of a pair, unless its row is ignored.
fn add_pair(columns: &mut ColumnPart, column: u32, pair: RowPair, number: u64) -> Result<(), Stop>
    requires last { column + 1 ≡ length columns.old.names }
    requires fresh { has_cell columns.old.cells pair.row column ≡ false }
    requires short { IsShort pair.value }
    ensures { Keeps result
        (columns_in columns.new
        ≡ with_cells (columns_in columns.old)
        (columns.old.cells ++ cell_for pair.row column pair.value number)) }
{
    let Some(row) = pair.row else {
        return Ok(());
    };
    add_cell(
        columns,
        Cell {
            row,
            column,
            value: pair.value,
            line: number,
        },
    )
}

// Begins a column, or goes on with the last one.
fn begin_column(columns: &mut ColumnPart, begins: bool, name: &[u8]) -> Result<(), Stop>
    requires few { begins ≡ true → length columns.old.names < max_columns }
    requires fresh { begins ≡ is_none (number_of name.now columns.old.names) }
    ensures { Keeps result (columns_in columns.new
        ≡ column_begun (columns_in columns.old) name.now) }
{
    columns.going = true;
    if !begins {
        return Ok(());
    }
    if columns.flags.push(columns.marked).is_err() {
        return Err(Stop::Memory);
    }
    match columns.names.add(name) {
        Ok(_) => Ok(()),
        Err(_) => Err(Stop::Memory),
    }
}

// Takes up the parts of a column's line.
fn take_parts(
    columns: &mut ColumnPart,
    parsed: &ColumnLine,
    line: &FileLine<'_>,
) -> Result<(), Stop>
    requires can { CanTake (columns_in columns.old) parsed.now }
    requires begins { parsed.now.begins
        ≡ is_none (number_of (field 0 (text_of line.now)) columns.old.names) }
    requires short { ArePairsShort parsed.now }
    ensures { Keeps result
        (columns_in columns.new
        ≡ taken (columns_in columns.old) (field 0 (text_of line.now)) parsed.now
        (text_of line.now).number) }
{
    begin_column(columns, parsed.begins, line.field(0))?;
    add_pair(columns, parsed.column, parsed.first, line.line.number)?;
    match parsed.second {
        Some(second) => add_pair(columns, parsed.column, second, line.line.number),
        None => Ok(()),
    }
}

// Takes up a marker, or answers its fault.
fn take_marker(columns: &mut ColumnPart, line: &FileLine<'_>) -> Result<(), Stop>
    requires { is_marker (text_of line.now) ≡ true }
    ensures { (rows : RowsSaid) →
        Takes (column_fault rows (columns_in columns.old) (text_of line.now)) result
        (columns_in columns.new
        ≡ columns_next true rows (columns_in columns.old) (text_of line.now)) }
{
    match marks_integer(line) {
        Ok(begins) => {
            columns.marked = begins;
            columns.going = false;
            Ok(())
        }
        Err(kind) => Err(Stop::Fault(kind)),
    }
}

/// Takes up a line of COLUMNS, or answers its fault.
pub fn take_column(
    rows: &RowPart,
    columns: &mut ColumnPart,
    line: &FileLine<'_>,
) -> Result<(), Stop>
    ensures taken { Takes
        (column_fault (rows_in rows.now) (columns_in columns.old) (text_of line.now)) result
        (columns_in columns.new
        ≡ columns_next true (rows_in rows.now) (columns_in columns.old) (text_of line.now)) }
{
    if is_marker(line) {
        return take_marker(columns, line);
    }
    match column_line_of(rows, columns, line) {
        Ok(parsed) => take_parts(columns, &parsed, line),
        Err(kind) => Err(Stop::Fault(kind)),
    }
}
