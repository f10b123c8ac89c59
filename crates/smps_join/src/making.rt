ghost use Rattle.std.specs.Prelude.{◌≡◌, ◌≤◌, ◌<◌, ◌^◌, pos, IfErr, IfOk, length};
ghost use Rattle.std.specs.List.{All};
ghost use Rattle.scenario_lists.specs.ScenarioList.{HaveAllParents, count_of};
ghost use Rattle.scenario_lists.specs.declared.data.ScenarioData.{ScenarioData};
ghost use Rattle.stoch_lines.specs.declared.places.StochEntry.{StochEntry};
ghost use Rattle.smps_stoch.specs.StochFacts.{IsPlace};
ghost use Rattle.join_numbers.specs.Changing.{IsFrameOf};
ghost use Rattle.join_numbers.specs.Sizes.{IsLarge};
ghost use Rattle.join_numbers.specs.UnfitNumbers.{ByUnfit};
ghost use Rattle.join_words.specs.RunOf.{scaled_cost};
ghost use Rattle.smps_join.specs.Unfit.{HasUnfit, program_with, tree_in};

use join_numbers::{MakeFault, columns, entries, rows, run_scenarios, scaled_number};
use join_words::Frame;
use scenario_lists::{ScenarioData, scenario_marks};
use smps_stoch::Stoch;
use smps_words::{Core, Periods};
use sp_model::Program;
use std::alloc::{AllocError, Global};
use tree_core::{Tree, build};
use wide_num::List;

// How many stages there are.
fn stages(periods: &Periods) -> u8
    ensures stages { result ≡ length periods.now.columns }
    ensures few { result ≤ 8 }
{
    periods.columns.len() as u8
}

// The tree of the scenarios.
fn tree(alloc: Global, periods: &Periods, stoch: &Stoch, count: usize) -> Result<Tree, AllocError>
    requires all { count ≡ count_of stoch.now }
    requires few { count ≤ 4096 }
    requires parents { HaveAllParents stoch.now }
    ensures { IfOk result (λ tree. tree ≡ tree_in periods.now stoch.now) }
{
    let stages = stages(periods);
    let marks = scenario_marks(alloc, stages, stoch, count)?;
    build(alloc, stages, &marks)
}

// The constant of the costs, scaled.
fn constant(core: &Core, frame: &Frame) -> Result<i128, MakeFault>
    requires { frame.now.cost_places ≤ 9 }
    ensures ok { IfOk result (λ constant. constant ≡ scaled_cost frame.now core.now.constant) }
    ensures err { IfErr result (ByUnfit (IsLarge (scaled_cost frame.now core.now.constant))) }
{
    match scaled_number(core.constant, frame.cost_places) {
        Some(constant) => Ok(constant),
        None => Err(MakeFault::Unfit),
    }
}

// The power of ten by which the costs are scaled.
fn cost_scale(frame: &Frame) -> i128
    requires { frame.now.cost_places ≤ 9 }
    ensures { result ≡ pos (10 ^ frame.now.cost_places) }
{
    10_i128.pow(u32::from(frame.cost_places))
}

/// The program of a core, its periods and a stoch file, whose scenarios are
/// listed.
pub fn program(
    alloc: Global,
    core: &Core,
    periods: &Periods,
    stoch: &Stoch,
    frame: &Frame,
    listed: &List<ScenarioData>,
) -> Result<Program, MakeFault>
    requires frame { IsFrameOf core.now frame.now }
    requires there { All
        (λ (s : ScenarioData). All (λ (e : StochEntry). IsPlace core.now e.place) s.entries)
        listed.now }
    requires weights { All (λ (s : ScenarioData). s.weight < 2 ^ 127) listed.now }
    requires all { length listed.now ≡ count_of stoch.now }
    requires few { length listed.now ≤ 4096 }
    requires parents { HaveAllParents stoch.now }
    ensures ok { IfOk result
        (λ program. program ≡ program_with core.now periods.now stoch.now frame.now listed.now) }
    ensures err { IfErr result
        (ByUnfit (HasUnfit (program_with core.now periods.now stoch.now frame.now listed.now))) }
{
    let columns = columns(alloc, core, periods, frame)?;
    let rows = rows(alloc, core, periods, frame)?;
    let entries = entries(alloc, core, frame)?;
    let constant = constant(core, frame)?;
    let scenarios = run_scenarios(alloc, core, frame, listed.as_slice())?;
    let tree = tree(alloc, periods, stoch, listed.len())?;
    Ok(Program {
        columns,
        rows,
        entries,
        constant,
        cost_scale: cost_scale(frame),
        scenarios,
        tree,
    })
}
