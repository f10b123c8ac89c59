ghost use Rattle.std.specs.Prelude.{◌≡◌, ◌<◌, ◌≤◌, ◌*◌, ◌^◌, ◌&&◌, ◌||◌, ◌∷◌, [], ◌++◌, Some, None, Result, Ok, true, false, length, pos, int_lt, unsigned_abs, IfOk, IfSome, if◌then◌else◌};
ghost use Rattle.std.specs.Option.{option_to_list};
ghost use Rattle.base_words.specs.Signs.{limit_size};
ghost use Rattle.dec_core.specs.DecimalValue.{decimal_of};
ghost use Rattle.smps_words.specs.CoreFacts.{max_end};
ghost use Rattle.smps_words.specs.Tables.{◌or◌, Passes};
ghost use Rattle.smps_words.specs.TextLines.{field_count, text_of};
ghost use Rattle.core_lines.specs.BoundLines.{bound_fault, bound_for, bound_set, bounds_in, bounds_next, column_word, has_value, is_bad, is_below, is_beyond, is_endless, is_lowered, is_vast, high_change, kind_of, low_change, lower_said, names_set, speaks_low, upper_said, value_fault, bound_value, value_read, value_word};
ghost use Rattle.core_lines.specs.BoundParts.{AreEndsSmall, HasGoodPlaces, has_count, value_place_fault};
ghost use Rattle.core_lines.specs.Boxes.{end_said};
ghost use Rattle.core_lines.specs.States.{Keeps, Takes, bounds_in_part};

use crate::bound_kinds::{has_count, has_value, is_bad, lower_said, speaks_low, upper_said};
use crate::bound_numbers::{is_beyond, value_fault, value_read};
use crate::bound_values::BoundValue;
use crate::cells::Bound;
use crate::growing::grow_flags;
use crate::kinds::{CoreKind, Stop};
use crate::parts::BoundPart;
use crate::set_names::{is_used, use_set};
use crate::words::{BoundKind, bound_kind_named};
use dec_core::read;
use line_core::Names;
use smps_words::FileLine;
use std::alloc::Global;

// Whether a line of a kind names its set.
fn names_set(kind: BoundKind, line: &FileLine<'_>) -> bool
    requires { kind_of (text_of line.now) ≡ Some kind }
    ensures { result ≡ names_set (text_of line.now) }
{
    if has_value(kind) {
        line.count() == 4
    } else {
        3 <= line.count()
    }
}

// Whether an earlier line spoke of the lower end of a column's box.
fn is_lowered(bounds: &BoundPart, column: u32) -> bool
    ensures { result ≡ is_lowered bounds.now.bounds column }
{
    match bounds.flags.as_slice().get(column as usize) {
        Some(flag) => *flag,
        None => false,
    }
}

// Whether a line of a kind with a value has a number of too great a magnitude.
fn is_past(kind: BoundKind, value: BoundValue) -> bool
    requires { HasGoodPlaces value }
    ensures { result ≡ (has_value kind && is_beyond value) }
{
    has_value(kind) && is_beyond(value)
}

// The bound of a line of this kind, column and number, unless it is of another set.
fn bound_for(
    bounds: &BoundPart,
    kind: BoundKind,
    column: u32,
    value: BoundValue,
) -> Result<Bound, CoreKind>
    requires { HasGoodPlaces value }
    ensures exact { Passes (value_place_fault bounds.now.bounds kind column value) result
        (λ bound. bound_for (Some kind) (Some column) value ≡ bound ∷ []) }
    ensures small { IfOk result AreEndsSmall }
{
    if is_bad(kind, value, is_lowered(bounds, column)) {
        return Err(CoreKind::BadBound);
    }
    if is_past(kind, value) {
        return Err(CoreKind::Limit);
    }
    Ok(Bound {
        column,
        lower: lower_said(kind, value),
        upper: upper_said(kind, value),
        speaks_low: speaks_low(kind),
    })
}

// The name of a line's set, empty where it has none.
fn bound_set<'a>(kind: BoundKind, line: &FileLine<'a>) -> &'a [u8]
    requires { kind_of (text_of line.now) ≡ Some kind }
    ensures { result.now ≡ bound_set (text_of line.now) }
{
    if names_set(kind, line) {
        line.field(1)
    } else {
        b""
    }
}

// The name of a line's column.
fn column_word<'a>(kind: BoundKind, line: &FileLine<'a>) -> &'a [u8]
    requires { kind_of (text_of line.now) ≡ Some kind }
    ensures { result.now ≡ column_word (text_of line.now) }
{
    if names_set(kind, line) {
        line.field(2)
    } else {
        line.field(1)
    }
}

// The text of a line's value.
fn value_word<'a>(kind: BoundKind, line: &FileLine<'a>) -> &'a [u8]
    requires { kind_of (text_of line.now) ≡ Some kind }
    ensures { result.now ≡ value_word (text_of line.now) }
{
    if names_set(kind, line) {
        line.field(3)
    } else {
        line.field(2)
    }
}

// The bound of a line without a fault, none where it is of another set.
fn bound_of(
    names: &Names,
    bounds: &BoundPart,
    line: &FileLine<'_>,
) -> Result<Option<Bound>, CoreKind>
    ensures exact { Passes (bound_fault names.now (bounds_in_part bounds.now) (text_of line.now))
        result
        (λ bound. option_to_list bound ≡ bounds_in names.now bounds.now.set (text_of line.now)) }
    ensures small { IfOk result (λ bound. IfSome bound AreEndsSmall) }
{
    let Some(kind) = bound_kind_named(line.field(0)) else {
        return Err(CoreKind::Fields);
    };
    if !has_count(kind, line.count()) {
        return Err(CoreKind::Fields);
    }
    let used = is_used(&bounds.set, bound_set(kind, line));
    let column = names.find(column_word(kind, line));
    if used && column.is_none() {
        return Err(CoreKind::UnknownColumn);
    }
    let found = read(value_word(kind, line));
    if has_value(kind) {
        if let Some(fault) = value_fault(found) {
            return Err(fault);
        }
    }
    let Some(column) = column else {
        return Ok(None);
    };
    if !used {
        return Ok(None);
    }
    match bound_for(bounds, kind, column, value_read(found)) {
        Ok(bound) => Ok(Some(bound)),
        Err(fault) => Err(fault),
    }
}

// Makes place for the flag of a column.
fn grow_for(bounds: &mut BoundPart, column: u32) -> Result<(), Stop>
    ensures place { Keeps result (column < length bounds.new.flags) }
    ensures same { bounds_in_part bounds.new ≡ bounds_in_part bounds.old }
{
    match grow_flags(&mut bounds.flags, column as usize + 1) {
        Ok(()) => Ok(()),
        Err(_) => Err(Stop::Memory),
    }
}

// Whether a line spoke of the lower end of a bound's column, with the bound's own.
fn flag_with(bounds: &BoundPart, bound: Bound) -> bool
    ensures { result ≡ (is_lowered bounds.now.bounds bound.column || bound.speaks_low) }
{
    is_lowered(bounds, bound.column) || bound.speaks_low
}

// Appends a bound, for whose flag there is place.
fn push_bound(bounds: &mut BoundPart, bound: Bound, flag: bool) -> Result<(), Stop>
    requires place { bound.column < length bounds.old.flags }
    requires small { AreEndsSmall bound }
    requires flag { flag ≡ (is_lowered bounds.old.bounds bound.column || bound.speaks_low) }
    ensures { Keeps result
        ((bounds.new.set ≡ bounds.old.set)
        × (bounds.new.bounds ≡ bounds.old.bounds ++ bound ∷ [])) }
{
    match bounds.bounds.push(bound) {
        Ok(()) => {
            let _ = bounds.flags.set(bound.column as usize, flag);
            Ok(())
        }
        Err(_) => Err(Stop::Memory),
    }
}

// Appends a bound.
fn add_bound(bounds: &mut BoundPart, bound: Bound) -> Result<(), Stop>
    requires { AreEndsSmall bound }
    ensures { Keeps result
        ((bounds.new.set ≡ bounds.old.set)
        × (bounds.new.bounds ≡ bounds.old.bounds ++ bound ∷ [])) }
{
    let flag = flag_with(bounds, bound);
    grow_for(bounds, bound.column)?;
    push_bound(bounds, bound, flag)
}

// Makes the set of a line the used one, where it is the first.
fn use_set_of(alloc: Global, bounds: &mut BoundPart, line: &FileLine<'_>) -> Result<(), Stop>
    ensures { Keeps result
        ((bounds.new.set ≡ (bounds.old.set or Some (bound_set (text_of line.now))))
        × (bounds.new.bounds ≡ bounds.old.bounds)) }
{
    match bound_kind_named(line.field(0)) {
        Some(kind) => use_set(alloc, &mut bounds.set, bound_set(kind, line)),
        None => Err(Stop::Memory),
    }
}

/// Takes up a line of BOUNDS, or answers its fault.
pub fn take_bound(
    alloc: Global,
    names: &Names,
    bounds: &mut BoundPart,
    line: &FileLine<'_>,
) -> Result<(), Stop>
    ensures { Takes (bound_fault names.now (bounds_in_part bounds.old) (text_of line.now)) result
        (bounds_in_part bounds.new
        ≡ bounds_next true names.now (bounds_in_part bounds.old) (text_of line.now)) }
{
    match bound_of(names, bounds, line) {
        Ok(bound) => {
            use_set_of(alloc, bounds, line)?;
            match bound {
                Some(bound) => add_bound(bounds, bound),
                None => Ok(()),
            }
        }
        Err(kind) => Err(Stop::Fault(kind)),
    }
}
