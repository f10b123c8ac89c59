ghost use Rattle.std.specs.Prelude.{◌≡◌, ◌≤◌, ◌^◌, unsigned_abs, IfOk};
ghost use Rattle.smps_words.specs.CoreFacts.{CoreFacts};
ghost use Rattle.core_lines.specs.States.{before_in};
ghost use Rattle.smps_core.specs.CoreData.{IsCoreOf, constant_of, minus, objective_of, objective_side, right_name_of};
ghost use Rattle.smps_core.specs.CoreMeaning.{FitsTogether};
ghost use Rattle.smps_core.specs.Joining.{AreListsOf, ArePartsOf, AreWordsOf, HasParts};

use crate::columns::columns_of;
use crate::entries::entries_of;
use crate::rows::{ZERO, rows_of};
use crate::sides::sides_of;
use core_lines::{ColumnPart, RowPart, State};
use dec_core::Decimal;
use line_core::Names;
use smps_words::{Core, CoreColumn, CoreEntry, CoreRow};
use std::alloc::{AllocError, Global};
use wide_num::{List, Text};

/// The name of the right sides where the file gives none.
const NO_NAME: &[u8] = b"RHS";

// A number with the other sign.
fn minus(value: Decimal) -> Decimal
    requires { unsigned_abs value.mantissa ≤ 10 ^ 36 }
    ensures { result ≡ minus value }
{
    Decimal {
        mantissa: -value.mantissa,
        places: value.places,
    }
}

// The right side of the objective, 0 where there is none.
fn objective_side(alloc: Global, state: &State) -> Result<Decimal, AllocError>
    ensures { IfOk result (λ right. right ≡ objective_side (before_in state.now)) }
{
    let sides = sides_of(alloc, state.rights.values.as_slice(), 1)?;
    Ok(sides.as_slice()[0].unwrap_or(ZERO))
}

// The constant of the cost.
fn constant_of(alloc: Global, state: &State) -> Result<Decimal, AllocError>
    ensures { IfOk result (λ constant. constant ≡ constant_of (before_in state.now)) }
{
    let right = objective_side(alloc, state)?;
    Ok(minus(right))
}

// The name of the used set of right sides.
fn right_name_of(alloc: Global, set: &Option<Text>) -> Result<Text, AllocError>
    ensures { IfOk result (λ name. name ≡ right_name_of set.now) }
{
    match set {
        Some(name) if name.len() > 0 => List::from_slice(alloc, name.as_slice()),
        _ => List::from_slice(alloc, NO_NAME),
    }
}

// The name of the first row of kind N.
fn objective_of(alloc: Global, state: &State) -> Result<Text, AllocError>
    ensures { IfOk result (λ name. name ≡ objective_of (before_in state.now)) }
{
    match state.rows.frees.name(0) {
        Some(name) => List::from_slice(alloc, name),
        None => Ok(List::new(alloc)),
    }
}

fn row_names_in(part: RowPart) -> Names
    ensures { result ≡ part.names }
{
    let RowPart { names, .. } = part;
    names
}

fn column_names_in(part: ColumnPart) -> Names
    ensures { result ≡ part.names }
{
    let ColumnPart { names, .. } = part;
    names
}

// The lists of a core.
#[derive(Drop)]
struct Lists {
    rows: List<CoreRow>,
    columns: List<CoreColumn>,
    entries: List<CoreEntry>,
}

// The rest of it, but for the names of rows and columns.
#[derive(Drop)]
struct Words {
    constant: Decimal,
    right_name: Text,
    objective: Text,
}

// Both.
#[derive(Drop)]
struct Parts {
    lists: Lists,
    words: Words,
}

// The lists that the lines say.
fn lists_of(alloc: Global, state: &State) -> Result<Lists, AllocError>
    requires { FitsTogether (before_in state.now) }
    ensures { IfOk result (λ lists. AreListsOf (before_in state.now) lists) }
{
    let rows = rows_of(alloc, state)?;
    let columns = columns_of(alloc, state)?;
    let entries = entries_of(alloc, state.columns.cells.as_slice())?;
    Ok(Lists {
        rows,
        columns,
        entries,
    })
}

// The constant and the names that the lines say.
fn words_of(alloc: Global, state: &State) -> Result<Words, AllocError>
    ensures { IfOk result (λ words. AreWordsOf (before_in state.now) words) }
{
    let constant = constant_of(alloc, state)?;
    let right_name = right_name_of(alloc, &state.rights.set)?;
    let objective = objective_of(alloc, state)?;
    Ok(Words {
        constant,
        right_name,
        objective,
    })
}

// All that the lines say, but for the names of rows and columns.
fn parts_of(alloc: Global, state: &State) -> Result<Parts, AllocError>
    requires { FitsTogether (before_in state.now) }
    ensures { IfOk result (λ parts. ArePartsOf (before_in state.now) parts) }
{
    let lists = lists_of(alloc, state)?;
    let words = words_of(alloc, state)?;
    Ok(Parts { lists, words })
}

// The core of these parts.
fn core_with(lists: Lists, words: Words, row_names: Names, column_names: Names) -> Core
    requires { CoreFacts lists.rows lists.columns lists.entries words.constant row_names
        column_names }
    ensures { HasParts result lists words row_names column_names }
{
    Core {
        rows: lists.rows,
        columns: lists.columns,
        entries: lists.entries,
        constant: words.constant,
        right_name: words.right_name,
        objective: words.objective,
        row_names,
        column_names,
    }
}

// The core of these parts and of the names of rows and columns.
fn joined(parts: Parts, state: State) -> Core
    requires fits { FitsTogether (before_in state) }
    requires parts { ArePartsOf (before_in state) parts }
    ensures { IsCoreOf (before_in state) result }
{
    let Parts { lists, words } = parts;
    let State {
        rows: row_part,
        columns: column_part,
        ..
    } = state;
    core_with(
        lists,
        words,
        row_names_in(row_part),
        column_names_in(column_part),
    )
}

/// The core that the lines say.
pub fn core_of(alloc: Global, state: State) -> Result<Core, AllocError>
    requires { FitsTogether (before_in state) }
    ensures { IfOk result (λ core. IsCoreOf (before_in state) core) }
{
    match parts_of(alloc, &state) {
        Ok(parts) => Ok(joined(parts, state)),
        Err(fault) => Err(fault),
    }
}
