ghost use Rattle.std.specs.Prelude.{◌≡◌, ◌++◌, codes, IfOk, OnOk};
ghost use Rattle.std.specs.Fmt.{signed_decimal};
ghost use Rattle.text_lines.specs.Headings.{whole_text, core_line, heading_of, tree_line, unit_of};
ghost use Rattle.text_lines.specs.Lines.{AreFull, line_of};

use crate::numbers::{taken_whole, unit};
use crate::writing::{end_line, fixed_line, put_count, put_number};
use smps_words::Core;
use sp_model::Run;
use std::alloc::{AllocError, Global};
use wide_num::{List, Text};

fn tree_line(alloc: Global, run: &Run) -> Result<Text, AllocError>
    ensures { IfOk result (λ text. text ≡ tree_line run.now) }
{
    let mut line = Vec::new(alloc);
    put_count(&mut line, b"scenarios ", run.program.scenarios.len() as u64)?;
    put_count(&mut line, b" periods ", u64::from(run.program.tree.stages))?;
    put_count(&mut line, b" nodes ", run.program.tree.nodes.len() as u64)?;
    end_line(line)
}

// Puts the number of columns that are taken as whole to a line.
fn put_whole(line: &mut Vec<u8>, core: &Core) -> Result<(), AllocError>
    ensures { OnOk result (line.new.items ≡ line.old.items ++ whole_text core.now) }
{
    put_count(line, b" taken-whole ", taken_whole(core) as u64)
}

fn core_line(alloc: Global, core: &Core, run: &Run) -> Result<Text, AllocError>
    ensures { IfOk result (λ text. text ≡ core_line core.now run.now) }
{
    let mut line = Vec::new(alloc);
    put_count(&mut line, b"columns ", run.program.columns.len() as u64)?;
    put_whole(&mut line, core)?;
    put_count(&mut line, b" rows ", run.program.rows.len() as u64)?;
    end_line(line)
}

fn unit_line(alloc: Global, run: &Run) -> Result<Text, AllocError>
    ensures { IfOk result
        (λ text. text ≡ line_of (codes "unit 1/" ++ signed_decimal (unit_of run.now))) }
{
    let mut line = Vec::new(alloc);
    put_number(&mut line, b"unit 1/", unit(run))?;
    end_line(line)
}

/// The four lines of the heading: the version of the text; scenarios, periods
/// and nodes; columns, those taken as whole, and rows; and the unit of bounds.
pub fn heading_lines(alloc: Global, core: &Core, run: &Run) -> Result<List<Text>, AllocError>
    ensures exact { IfOk result (λ lines. lines ≡ heading_of core.now run.now) }
    ensures full { IfOk result (λ lines. AreFull lines) }
{
    let mut lines = List::new(alloc);
    lines.push(fixed_line(alloc, b"sppy 1")?)?;
    lines.push(tree_line(alloc, run)?)?;
    lines.push(core_line(alloc, core, run)?)?;
    lines.push(unit_line(alloc, run)?)?;
    Ok(lines)
}
