ghost use Rattle.std.specs.Prelude.{◌≡◌, ◌+◌, ◌<◌, ◌≤◌, ◌^◌, length, IfOk, IfSome};
ghost use Rattle.smps_words.specs.CoreFacts.{IsShort};
ghost use Rattle.smps_words.specs.NumberFields.{number_fault, number_in};
ghost use Rattle.smps_words.specs.Tables.{Passes};
ghost use Rattle.smps_words.specs.TextLines.{field, text_of};
ghost use Rattle.core_lines.specs.ColumnLines.{is_same_row, pair_fault};
ghost use Rattle.core_lines.specs.RowLines.{row_named};
ghost use Rattle.core_lines.specs.States.{pair_at, rows_in};
ghost use Rattle.core_lines.specs.Words.{kind_of_number};

use crate::kinds::CoreKind;
use crate::parts::RowPart;
use crate::row_lines::row_named;
use crate::words::kind_of_number;
use dec_core::{Decimal, read};
use smps_words::FileLine;

/// A row, none for one that is ignored, and a value.
#[derive(Clone, Copy, Debug, Drop, PartialEq, Eq)]
pub struct RowPair {
    pub row: Option<u32>,
    pub value: Decimal,
}

/// The number of a field.
pub fn number_of_text(text: &[u8]) -> Result<Decimal, CoreKind>
    ensures exact { Passes (number_fault kind_of_number text.now) result
        (λ value. value ≡ number_in text.now) }
    ensures short { IfOk result (λ value. IsShort value) }
{
    match read(text) {
        Ok(value) => Ok(value),
        Err(fault) => Err(kind_of_number(fault)),
    }
}

/// The pair at field `k` of a line.
pub fn pair_of(rows: &RowPart, line: &FileLine<'_>, k: usize) -> Result<RowPair, CoreKind>
    requires { k < 2 ^ 32 }
    ensures exact { Passes (pair_fault (rows_in rows.now) k (text_of line.now)) result
        (λ pair. pair ≡ pair_at (rows_in rows.now) k (text_of line.now)) }
    ensures short { IfOk result (λ pair. IsShort pair.value) }
    ensures placed { IfOk result (λ pair. IfSome pair.row (λ row. row ≤ length rows.now.names)) }
{
    let Some(row) = row_named(rows, line.field(k)) else {
        return Err(CoreKind::UnknownRow);
    };
    let value = number_of_text(line.field(k + 1))?;
    Ok(RowPair { row, value })
}

/// Whether two rows are the same and aren't ignored.
pub fn is_same_row(one: Option<u32>, other: Option<u32>) -> bool
    ensures { result ≡ is_same_row one other }
{
    match (one, other) {
        (Some(one), Some(other)) => one == other,
        _ => false,
    }
}
