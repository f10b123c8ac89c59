ghost use Rattle.std.specs.Prelude.{◌≡◌, ◌<◌, ◌≤◌, [], ◌∷◌, ◌++◌, true, length, Some, IfSome, OnSome};
ghost use Rattle.smps_words.specs.CoreFacts.{max_rows};
ghost use Rattle.smps_words.specs.Tables.{Passes};
ghost use Rattle.smps_words.specs.TextLines.{field, text_of};
ghost use Rattle.core_lines.specs.RowLines.{row_fault, row_named, rows_next};
ghost use Rattle.core_lines.specs.States.{Keeps, Takes, rows_in};
ghost use Rattle.core_lines.specs.Words.{row_kind_named};

use crate::kinds::{CoreKind, Stop};
use crate::parts::RowPart;
use crate::words::row_kind_named;
use smps_words::{FileLine, RowKind};

/// The greatest number of constraint rows.
const MAX_ROWS: usize = 5000;

/// How many names a list of names can number.
const MAX_NAMES: usize = 4_294_967_296;

/// The number of a row by its name, counted with the objective as 0 and the
/// constraint rows from 1; `Some(None)` for a row that is ignored.
pub fn row_named(rows: &RowPart, name: &[u8]) -> Option<Option<u32>>
    ensures exact { result ≡ row_named (rows_in rows.now) name.now }
    ensures placed { IfSome result (λ found. IfSome found (λ row. row ≤ length rows.now.names)) }
{
    if let Some(row) = rows.names.find(name) {
        return Some(Some(row + 1));
    }
    match rows.frees.find(name) {
        Some(number) => {
            if number == 0 {
                Some(Some(0))
            } else {
                Some(None)
            }
        }
        None => None,
    }
}

// The kind of the row of a line without a fault, none for N.
fn row_kind_of(rows: &RowPart, line: &FileLine<'_>) -> Result<Option<RowKind>, CoreKind>
    ensures { Passes (row_fault (rows_in rows.now) (text_of line.now)) result
        (λ kind. (row_kind_named (field 0 (text_of line.now)) ≡ Some kind)
        × OnSome kind (length rows.now.names < max_rows)) }
{
    if line.count() != 2 {
        return Err(CoreKind::Fields);
    }
    let Some(kind) = row_kind_named(line.field(0)) else {
        return Err(CoreKind::Fields);
    };
    if row_named(rows, line.field(1)).is_some() {
        return Err(CoreKind::Twice);
    }
    if kind.is_some() && rows.names.len() >= MAX_ROWS {
        return Err(CoreKind::Limit);
    }
    Ok(kind)
}

fn add_row(rows: &mut RowPart, kind: RowKind, name: &[u8]) -> Result<(), Stop>
    requires { length rows.old.names < max_rows }
    ensures { Keeps result
        ((rows.new.names ≡ rows.old.names ++ name.now ∷ [])
        × (rows.new.kinds ≡ rows.old.kinds ++ kind ∷ []) × (rows.new.frees ≡ rows.old.frees)) }
{
    if rows.kinds.push(kind).is_err() {
        return Err(Stop::Memory);
    }
    match rows.names.add(name) {
        Ok(_) => Ok(()),
        Err(_) => Err(Stop::Memory),
    }
}

fn add_free(rows: &mut RowPart, name: &[u8]) -> Result<(), Stop>
    ensures { Keeps result
        ((rows.new.names ≡ rows.old.names) × (rows.new.kinds ≡ rows.old.kinds)
        × (rows.new.frees ≡ rows.old.frees ++ name.now ∷ [])) }
{
    if rows.frees.len() >= MAX_NAMES {
        return Err(Stop::Memory);
    }
    match rows.frees.add(name) {
        Ok(_) => Ok(()),
        Err(_) => Err(Stop::Memory),
    }
}

/// Takes up a line of ROWS, or answers its fault.
pub fn take_row(rows: &mut RowPart, line: &FileLine<'_>) -> Result<(), Stop>
    ensures { Takes (row_fault (rows_in rows.old) (text_of line.now)) result
        (rows_in rows.new ≡ rows_next true (rows_in rows.old) (text_of line.now)) }
{
    match row_kind_of(rows, line) {
        Ok(Some(kind)) => add_row(rows, kind, line.field(1)),
        Ok(None) => add_free(rows, line.field(1)),
        Err(kind) => Err(Stop::Fault(kind)),
    }
}
