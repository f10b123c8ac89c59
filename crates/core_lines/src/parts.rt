ghost use Rattle.std.specs.Prelude.{◌≤◌, length};
ghost use Rattle.smps_words.specs.CoreFacts.{max_rows};
ghost use Rattle.core_lines.specs.PartFacts.{BoundFacts, ColumnFacts, SideFacts};

use crate::cells::{Bound, Cell, RowValue};
use line_core::Names;
use smps_words::RowKind;
use wide_num::{List, Text};

/// The constraint rows with their kinds, and the rows of kind N.
#[derive(Drop)]
pub struct RowPart {
    pub names: Names,
    pub kinds: List<RowKind>,
    pub frees: Names,
    pub ghost few: { length names ≤ max_rows },
}

/// The columns with their entries and costs. `marks` has for each row one more
/// than the last column with an entry there.
#[derive(Drop)]
pub struct ColumnPart {
    pub names: Names,
    pub flags: List<bool>,
    pub marked: bool,
    pub going: bool,
    pub cells: List<Cell>,
    pub marks: List<u32>,
    pub ghost facts: { ColumnFacts names cells marks },
}

/// Right sides or ranges, with the name of the used set. `flags` has for each
/// row whether it has one.
#[derive(Drop)]
pub struct SidePart {
    pub set: Option<Text>,
    pub values: List<RowValue>,
    pub flags: List<bool>,
    pub ghost facts: { SideFacts values flags },
}

/// Bounds, with the name of the used set. `flags` has for each column whether a
/// line spoke of its lower end.
#[derive(Drop)]
pub struct BoundPart {
    pub set: Option<Text>,
    pub bounds: List<Bound>,
    pub flags: List<bool>,
    pub ghost facts: { BoundFacts bounds flags },
}
