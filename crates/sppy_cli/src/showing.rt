ghost use Rattle.std.specs.Prelude.{◌≡◌, ◌<◌, ◌≤◌, None, IfOk};
ghost use Rattle.std.specs.List.{All, concat};
ghost use Rattle.io_edge.specs.Faults.{CountsTo};
ghost use Rattle.run_words.specs.declared.command.Action.TheVariants.{Show};
ghost use Rattle.sp_model.specs.Problems.{scenarios};
ghost use Rattle.sppy_cli.specs.Causes.{KeepsFacts};
ghost use Rattle.sppy_cli.specs.Statuses.{read_fault_of, reported, write_fault_of};
ghost use Rattle.sppy_cli.specs.Texts.{PutsText, WritesRest, row_places_of, show_rest};
ghost use Rattle.text_lines.specs.ShowLines.{all_scenario_lines, column_lines_of, row_lines_of, scenario_lines_of};

use crate::instance::Instance;
use crate::puts::put_lines;
use crate::status::Status;
use io_edge::Sink;
use smps_join::row_places;
use std::alloc::{AllocError, Global};
use text_lines::{column_lines, row_lines, scenario_lines};
use wide_num::List;

// Writes a line for each column.
fn put_columns<K: Sink>(alloc: Global, out: &mut K, instance: &Instance) -> Result<(), Status>
    ensures text { PutsText (concat (column_lines_of instance.now.triple.core instance.now.run))
        (K.written out.old) (K.written out.new) result }
    ensures count { CountsTo (K.count out.old) (K.count out.new) (reported write_fault_of result) }
{
    let Ok(lines) = column_lines(alloc, &instance.triple.core, &instance.run) else {
        return Err(Status::Memory);
    };
    put_lines(out, &lines)
}

// The places of each row's power of ten.
fn places(alloc: Global, instance: &Instance) -> Result<List<u8>, AllocError>
    requires { KeepsFacts instance.now.triple }
    ensures exact { IfOk result (λ places. places ≡ row_places_of instance.now) }
    ensures few { IfOk result (λ places. All (λ p. p ≤ 9) places) }
{
    row_places(
        alloc,
        &instance.triple.core,
        &instance.triple.periods,
        &instance.triple.stoch,
        &instance.run.options,
    )
}

// Writes a line for each row.
fn put_rows<K: Sink>(alloc: Global, out: &mut K, instance: &Instance) -> Result<(), Status>
    requires { KeepsFacts instance.now.triple }
    ensures text { PutsText
        (concat
        (row_lines_of instance.now.triple.core instance.now.run (row_places_of instance.now)))
        (K.written out.old) (K.written out.new) result }
    ensures count { CountsTo (K.count out.old) (K.count out.new) (reported write_fault_of result) }
{
    let Ok(places) = places(alloc, instance) else {
        return Err(Status::Memory);
    };
    let Ok(lines) = row_lines(
        alloc,
        &instance.triple.core,
        &instance.run,
        places.as_slice(),
    ) else {
        return Err(Status::Memory);
    };
    put_lines(out, &lines)
}

// Writes the lines of a scenario that is there.
fn put_scenario<K: Sink>(
    alloc: Global,
    out: &mut K,
    instance: &Instance,
    s: u32,
) -> Result<(), Status>
    requires { s < scenarios instance.now.run }
    ensures text { PutsText (concat (scenario_lines_of instance.now.triple.core instance.now.run s))
        (K.written out.old) (K.written out.new) result }
    ensures count { CountsTo (K.count out.old) (K.count out.new) (reported write_fault_of result) }
{
    let Ok(lines) = scenario_lines(alloc, &instance.triple.core, &instance.run, s) else {
        return Err(Status::Memory);
    };
    put_lines(out, &lines)
}

// Writes the lines of all scenarios, those of one after those of another.
fn put_scenarios<K: Sink>(alloc: Global, out: &mut K, instance: &Instance) -> Result<(), Status>
    ensures text { PutsText (concat (all_scenario_lines instance.now.triple.core instance.now.run))
        (K.written out.old) (K.written out.new) result }
    ensures count { CountsTo (K.count out.old) (K.count out.new) (reported write_fault_of result) }
{
    for s in 0..instance.run.program.scenarios.len() {
        match put_scenario(alloc, out, instance, s as u32) {
            Ok(()) => (),
            Err(status) => return Err(status),
        }
    }
    Ok(())
}

// Writes all that `show` tells behind the heading.
fn put_show<K: Sink>(alloc: Global, out: &mut K, instance: &Instance) -> Result<(), Status>
    requires { KeepsFacts instance.now.triple }
    ensures text { PutsText (show_rest instance.now) (K.written out.old) (K.written out.new)
        result }
    ensures count { CountsTo (K.count out.old) (K.count out.new) (reported write_fault_of result) }
{
    match put_columns(alloc, out, instance) {
        Ok(()) => (),
        Err(status) => return Err(status),
    }
    match put_rows(alloc, out, instance) {
        Ok(()) => (),
        Err(status) => return Err(status),
    }
    put_scenarios(alloc, out, instance)
}

/// Writes what `show` tells behind the heading: columns, rows, and scenarios
/// with their nodes and the limits of their rows.
pub fn write_show<K: Sink>(alloc: Global, out: &mut K, instance: &Instance) -> Status
    requires { KeepsFacts instance.now.triple }
    ensures written { WritesRest Show instance.now (K.written out.old) (K.written out.new) result }
    ensures count { CountsTo (K.count out.old) (K.count out.new) (write_fault_of result) }
    ensures read { read_fault_of result ≡ None }
{
    match put_show(alloc, out, instance) {
        Ok(()) => Status::Done,
        Err(status) => status,
    }
}
