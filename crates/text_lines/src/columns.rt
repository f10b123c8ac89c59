ghost use Rattle.std.specs.Prelude.{◌≡◌, ◌++◌, ◌<◌, ◌≤◌, ◌^◌, length, slice_index_or, IfOk, OnOk};
ghost use Rattle.std.specs.List.{All};
ghost use Rattle.text_lines.specs.Lines.{AreFull, line_of};
ghost use Rattle.text_lines.specs.ShowLines.{box_text, column_line, column_lines_of, row_line, row_lines_of};

use crate::writing::{end_line, put_count, put_name, put_number};
use smps_words::Core;
use sp_model::{Column, Run};
use std::alloc::{AllocError, Global};
use wide_num::{List, Text};

// Puts the box of a column to a line.
fn put_box(line: &mut Vec<u8>, column: &Column) -> Result<(), AllocError>
    ensures { OnOk result (line.new.items ≡ line.old.items ++ box_text column.now) }
{
    put_number(line, b" ", i128::from(column.lower))?;
    put_number(line, b" ", i128::from(column.upper))
}

fn column_line(alloc: Global, core: &Core, run: &Run, j: u32) -> Result<Text, AllocError>
    requires { j < length run.now.program.columns }
    ensures { IfOk result (λ text. text ≡ column_line core.now run.now j) }
{
    let column = &run.program.columns.as_slice()[j as usize];
    let mut line = Vec::new(alloc);
    put_name(&mut line, b"column ", &core.column_names, j)?;
    put_count(&mut line, b" ", u64::from(column.stage))?;
    put_box(&mut line, column)?;
    end_line(line)
}

/// A line for each column: its name, its stage and its box.
pub fn column_lines(alloc: Global, core: &Core, run: &Run) -> Result<List<Text>, AllocError>
    ensures exact { IfOk result (λ lines. lines ≡ column_lines_of core.now run.now) }
    ensures full { IfOk result (λ lines. AreFull lines) }
{
    let mut lines = List::new(alloc);
    for j in 0..run.program.columns.len() {
        lines.push(column_line(alloc, core, run, j as u32)?)?;
    }
    Ok(lines)
}

// Ten to the power of a row's places.
fn power(places: &[u8], i: usize) -> u64
    requires few { All (λ p. p ≤ 9) places.now }
    ensures { result ≡ 10 ^ slice_index_or places.now i 0 }
{
    match places.get(i) {
        Some(places) => 10u64.pow(u32::from(*places)),
        None => 1,
    }
}

fn row_line(
    alloc: Global,
    core: &Core,
    run: &Run,
    places: &[u8],
    i: u32,
) -> Result<Text, AllocError>
    requires there { i < length run.now.program.rows }
    requires few { All (λ p. p ≤ 9) places.now }
    ensures { IfOk result (λ text. text ≡ row_line core.now run.now places.now i) }
{
    let row = &run.program.rows.as_slice()[i as usize];
    let mut line = Vec::new(alloc);
    put_name(&mut line, b"row ", &core.row_names, i)?;
    put_count(&mut line, b" ", u64::from(row.stage))?;
    put_count(&mut line, b" ", power(places, i as usize))?;
    end_line(line)
}

/// A line for each row: its name, its stage, and the power of ten of this many
/// places by which its numbers were multiplied.
pub fn row_lines(
    alloc: Global,
    core: &Core,
    run: &Run,
    places: &[u8],
) -> Result<List<Text>, AllocError>
    requires few { All (λ p. p ≤ 9) places.now }
    ensures exact { IfOk result (λ lines. lines ≡ row_lines_of core.now run.now places.now) }
    ensures full { IfOk result (λ lines. AreFull lines) }
{
    let mut lines = List::new(alloc);
    for i in 0..run.program.rows.len() {
        lines.push(row_line(alloc, core, run, places, i as u32)?)?;
    }
    Ok(lines)
}
