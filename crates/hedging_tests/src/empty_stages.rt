//! A run with stages that have no columns, as no files give one: each column before
//! the last stage is of the first.

ghost use Rattle.std.specs.Prelude.{◌≡◌, map, IfOk, OnOk};
ghost use Rattle.hedging_tests.specs.Forward.{drawn_forward, forward};

use sp_model::{Column, Run};
use std::alloc::{AllocError, Global};
use wide_num::List;

// The column, in the first stage unless it is of the last one.
fn drawn_forward(column: Column, stages: u8) -> Column
    ensures { result ≡ drawn_forward stages column }
{
    if column.stage < stages {
        Column {
            stage: 1,
            lower: column.lower,
            upper: column.upper,
            cost: column.cost,
        }
    } else {
        column
    }
}

// All columns so.
fn all_forward(alloc: Global, columns: &[Column], stages: u8) -> Result<List<Column>, AllocError>
    ensures { IfOk result (λ made. made ≡ map (drawn_forward stages) columns.now) }
{
    let mut made = List::new(alloc);
    for column in columns {
        made.push(drawn_forward(*column, stages))?;
    }
    Ok(made)
}

/// Makes each column before the last stage one of the first, so that the stages
/// between have none.
pub fn empty_stages_between(alloc: Global, run: &mut Run) -> Result<(), AllocError>
    ensures { OnOk result (run.new.program ≡ forward run.old.program) }
{
    let columns = all_forward(
        alloc,
        run.program.columns.as_slice(),
        run.program.tree.stages,
    )?;
    run.program.columns = columns;
    Ok(())
}
