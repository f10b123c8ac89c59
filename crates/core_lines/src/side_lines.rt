ghost use Rattle.std.specs.Prelude.{◌≡◌, ◌+◌, ◌<◌, ◌≤◌, ◌∷◌, [], ◌++◌, Some, None, true, false, length, IfOk, IfSome, if◌then◌else◌};
ghost use Rattle.std.specs.List.{list_any};
ghost use Rattle.smps_words.specs.CoreFacts.{IsShort};
ghost use Rattle.smps_words.specs.Tables.{◌or◌, Passes};
ghost use Rattle.smps_words.specs.TextLines.{text_of};
ghost use Rattle.core_lines.specs.ColumnLines.{pair_fault};
ghost use Rattle.core_lines.specs.SideLines.{first_pair, has_set_name, has_side, has_two_pairs, set_name, side_fault, side_for, sides_next, unused_fault, used_fault};
ghost use Rattle.core_lines.specs.SideParts.{AreSidesShort, IsSideLine, next_at, pair_sides, repeats_sides, sides_of_parts};
ghost use Rattle.core_lines.specs.States.{Keeps, Takes, pair_at, rows_in, sides_in_part};

use crate::cells::RowValue;
use crate::growing::grow_flags;
use crate::kinds::{CoreKind, Stop};
use crate::pairs::{RowPair, is_same_row, number_of_text, pair_of};
use crate::parts::{RowPart, SidePart};
use crate::set_names::{is_used, use_set};
use smps_words::FileLine;
use std::alloc::Global;

/// The pairs of a line of the used set.
#[derive(Clone, Copy, Drop)]
pub struct SideLine {
    pub first: RowPair,
    pub second: Option<RowPair>,
}

// Whether a line begins with the name of its set.
fn has_set_name(line: &FileLine<'_>) -> bool
    ensures { result ≡ has_set_name (text_of line.now) }
{
    line.count() == 3 || line.count() == 5
}

// The name of a line's set, empty where it has none.
fn set_name<'a>(line: &FileLine<'a>) -> &'a [u8]
    ensures { result.now ≡ set_name (text_of line.now) }
{
    if has_set_name(line) {
        line.field(0)
    } else {
        b""
    }
}

// The field of the first pair.
fn first_pair(line: &FileLine<'_>) -> usize
    ensures value { result ≡ first_pair (text_of line.now) }
    ensures small { result ≤ 1 }
{
    if has_set_name(line) { 1 } else { 0 }
}

// The second pair of a line, if it has one.
fn second_of(rows: &RowPart, line: &FileLine<'_>) -> Result<Option<RowPair>, CoreKind>
    ensures exact { Passes
        (if has_two_pairs (text_of line.now) then pair_fault (rows_in rows.now)
        (first_pair (text_of line.now) + 2) (text_of line.now) else None) result
        (λ pair. pair ≡ next_at (rows_in rows.now) (text_of line.now)) }
    ensures short { IfOk result (λ pair. IfSome pair (λ p. IsShort p.value)) }
{
    if line.count() < 4 {
        return Ok(None);
    }
    match pair_of(rows, line, first_pair(line) + 2) {
        Ok(pair) => Ok(Some(pair)),
        Err(kind) => Err(kind),
    }
}

// Whether a row that isn't ignored has a value already.
fn has_side(sides: &SidePart, row: Option<u32>) -> bool
    ensures { result ≡ has_side sides.now.values row }
{
    let Some(row) = row else {
        return false;
    };
    match sides.flags.as_slice().get(row as usize) {
        Some(flag) => *flag,
        None => false,
    }
}

// Whether a line has a value of a row that has one already.
fn repeats(sides: &SidePart, parsed: &SideLine) -> bool
    ensures { result ≡ repeats_sides sides.now.values parsed.now }
{
    if has_side(sides, parsed.first.row) {
        return true;
    }
    match parsed.second {
        None => false,
        Some(second) => { has_side(sides, second.row) || is_same_row(parsed.first.row, second.row) }
    }
}

// The pairs of a line of the used set without a fault in them.
fn side_line_of(rows: &RowPart, sides: &SidePart, line: &FileLine<'_>) -> Result<SideLine, CoreKind>
    ensures exact { Passes
        (used_fault (rows_in rows.now) (sides_in_part sides.now) (text_of line.now)) result
        (λ parsed. IsSideLine (rows_in rows.now) (text_of line.now) parsed) }
    ensures fresh { IfOk result (λ parsed. repeats_sides sides.now.values parsed ≡ false) }
    ensures short { IfOk result AreSidesShort }
{
    let first = match pair_of(rows, line, first_pair(line)) {
        Ok(first) => first,
        Err(kind) => return Err(kind),
    };
    let second = match second_of(rows, line) {
        Ok(second) => second,
        Err(kind) => return Err(kind),
    };
    let parsed = SideLine { first, second };
    if repeats(sides, &parsed) {
        return Err(CoreKind::Twice);
    }
    Ok(parsed)
}

// The numbers of a line of another set.
fn test_unused(line: &FileLine<'_>) -> Result<(), CoreKind>
    ensures { Passes (unused_fault (text_of line.now)) result (λ _. Unit {0}) }
{
    let first = first_pair(line);
    let _ = number_of_text(line.field(first + 1))?;
    if line.count() < 4 {
        return Ok(());
    }
    let _ = number_of_text(line.field(first + 3))?;
    Ok(())
}

// Makes place for the flag of a row.
fn grow_for(sides: &mut SidePart, row: u32) -> Result<(), Stop>
    ensures place { Keeps result (row < length sides.new.flags) }
    ensures same { sides_in_part sides.new ≡ sides_in_part sides.old }
{
    match grow_flags(&mut sides.flags, row as usize + 1) {
        Ok(()) => Ok(()),
        Err(_) => Err(Stop::Memory),
    }
}

// Appends a value, for whose flag there is place.
fn push_side(sides: &mut SidePart, value: RowValue) -> Result<(), Stop>
    requires place { value.row < length sides.old.flags }
    requires short { IsShort value.value }
    ensures { Keeps result
        ((sides.new.set ≡ sides.old.set) × (sides.new.values ≡ sides.old.values ++ value ∷ [])) }
{
    match sides.values.push(value) {
        Ok(()) => {
            let _ = sides.flags.set(value.row as usize, true);
            Ok(())
        }
        Err(_) => Err(Stop::Memory),
    }
}

// Appends the value of a pair, unless its row is ignored.
fn add_pair(sides: &mut SidePart, pair: RowPair) -> Result<(), Stop>
    requires { IsShort pair.value }
    ensures { Keeps result
        ((sides.new.set ≡ sides.old.set)
        × (sides.new.values ≡ sides.old.values ++ side_for pair.row pair.value)) }
{
    let Some(row) = pair.row else {
        return Ok(());
    };
    grow_for(sides, row)?;
    push_side(
        sides,
        RowValue {
            row,
            value: pair.value,
        },
    )
}

// Takes up the pairs of a line of the used set.
fn take_pairs(sides: &mut SidePart, parsed: &SideLine) -> Result<(), Stop>
    requires { AreSidesShort parsed.now }
    ensures { Keeps result
        ((sides.new.set ≡ sides.old.set)
        × (sides.new.values ≡ sides.old.values ++ sides_of_parts parsed.now)) }
{
    add_pair(sides, parsed.first)?;
    match parsed.second {
        Some(second) => add_pair(sides, second),
        None => Ok(()),
    }
}

// Takes up a line of the used set with two to five fields, or answers its fault.
fn take_used(
    alloc: Global,
    rows: &RowPart,
    sides: &mut SidePart,
    line: &FileLine<'_>,
) -> Result<(), Stop>
    ensures { Takes (used_fault (rows_in rows.now) (sides_in_part sides.old) (text_of line.now))
        result
        ((sides.new.set ≡ (sides.old.set or Some (set_name (text_of line.now))))
        ×
        (sides.new.values
        ≡ sides.old.values ++ pair_sides (rows_in rows.now) (text_of line.now))) }
{
    match side_line_of(rows, sides, line) {
        Ok(parsed) => {
            use_set(alloc, &mut sides.set, set_name(line))?;
            take_pairs(sides, &parsed)
        }
        Err(kind) => Err(Stop::Fault(kind)),
    }
}

/// Takes up a line of RHS or RANGES, or answers its fault.
pub fn take_side(
    alloc: Global,
    rows: &RowPart,
    sides: &mut SidePart,
    line: &FileLine<'_>,
) -> Result<(), Stop>
    ensures { Takes (side_fault (rows_in rows.now) (sides_in_part sides.old) (text_of line.now))
        result
        (sides_in_part sides.new
        ≡ sides_next true (rows_in rows.now) (sides_in_part sides.old) (text_of line.now)) }
{
    let count = line.count();
    if !(2 <= count && count <= 5) {
        return Err(Stop::Fault(CoreKind::Fields));
    }
    if is_used(&sides.set, set_name(line)) {
        return take_used(alloc, rows, sides, line);
    }
    match test_unused(line) {
        Ok(()) => Ok(()),
        Err(kind) => Err(Stop::Fault(kind)),
    }
}
