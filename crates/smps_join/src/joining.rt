ghost use Rattle.std.specs.Prelude.{◌≡◌, ◌<◌, ◌≤◌, false, length, pos};
ghost use Rattle.smps_stoch.specs.StochFacts.{StochFacts};
ghost use Rattle.scenario_lists.specs.Live.{live_scenarios};
ghost use Rattle.scenario_lists.specs.ScenarioList.{count_of};
ghost use Rattle.sp_model.specs.RunFacts.{OptionFacts};
ghost use Rattle.join_words.specs.Framing.{frame_of};
ghost use Rattle.join_words.specs.Joining.{IsTimely, Joins, source_of};
ghost use Rattle.join_words.specs.RunOf.{has_many_cells, is_crowded, is_too_large, nonleaf_of, options_of, program_of, total_of};
ghost use Rattle.smps_join.specs.Counting.{live_of};
ghost use Rattle.smps_join.specs.Cutting.{cut_options};
ghost use Rattle.smps_join.specs.Joinable.{CanJoin};

use crate::anticipation::{first_early, nonleaf};
use crate::cells::{has_many_cells, live_columns};
use crate::making::program;
use crate::weighing::total;
use capped_num::CAP;
use join_frame::frame;
use join_numbers::MakeFault;
use join_words::{Frame, JoinFault};
use reach_core::run_reach;
use scenario_lists::{ListFault, ScenarioData, scenario_count, scenarios};
use smps_stoch::Stoch;
use smps_words::{Core, Periods};
use sp_model::{MAX_CELLS, Options, Program, Run};
use std::alloc::Global;
use std::cmp;
use wide_num::List;

/// The greatest reach of a run: 2^120.
const MAX_REACH: u128 = 1_329_227_995_784_915_872_903_807_060_280_344_576;

// The options with no more ranks than scenarios.
fn cut_options(options: &Options, count: usize) -> Options
    ensures { result ≡ cut_options options.now count }
{
    Options {
        ranks: cmp::min(options.ranks, count),
        ..*options
    }
}

// The run of a program, unless its reach is too great.
fn reached(
    alloc: Global,
    core: &Core,
    periods: &Periods,
    stoch: &Stoch,
    options: &Options,
    program: Program,
    total: i128,
    nonleaf: u32,
) -> Result<Run, JoinFault>
    requires can { CanJoin core.now periods.now stoch.now options.now }
    requires timely { IsTimely (source_of core.now periods.now stoch.now options.now) }
    requires few { is_crowded (source_of core.now periods.now stoch.now options.now) ≡ false }
    requires cells { is_too_large (source_of core.now periods.now stoch.now options.now) ≡ false }
    requires program { program ≡ program_of (source_of core.now periods.now stoch.now options.now) }
    requires total { total ≡ total_of (source_of core.now periods.now stoch.now options.now) }
    requires nonleaf { nonleaf ≡ nonleaf_of (source_of core.now periods.now stoch.now options.now) }
    ensures { Joins result (source_of core.now periods.now stoch.now options.now) options.now }
{
    let options = cut_options(options, program.scenarios.len());
    let Ok(reach) = run_reach(alloc, &program, &options, total, nonleaf) else {
        return Err(JoinFault::Memory);
    };
    if reach > MAX_REACH {
        return Err(JoinFault::Wide { reach });
    }
    Ok(Run {
        program,
        options,
        total,
        nonleaf,
    })
}

// The run of listed scenarios, which have only entries that stay in it.
fn weighed(
    alloc: Global,
    core: &Core,
    periods: &Periods,
    stoch: &Stoch,
    options: &Options,
    frame: &Frame,
    listed: &List<ScenarioData>,
    nonleaf: u32,
) -> Result<Run, JoinFault>
    requires can { CanJoin core.now periods.now stoch.now options.now }
    requires timely { IsTimely (source_of core.now periods.now stoch.now options.now) }
    requires few { is_crowded (source_of core.now periods.now stoch.now options.now) ≡ false }
    requires cells { is_too_large (source_of core.now periods.now stoch.now options.now) ≡ false }
    requires frame { frame.now ≡ frame_of (source_of core.now periods.now stoch.now options.now) }
    requires listed { listed.now ≡ live_scenarios (live_of frame.now.sides) stoch.now }
    requires nonleaf { nonleaf ≡ nonleaf_of (source_of core.now periods.now stoch.now options.now) }
    ensures { Joins result (source_of core.now periods.now stoch.now options.now) options.now }
{
    let Some(total) = total(listed.as_slice()) else {
        return Err(JoinFault::Wide { reach: CAP });
    };
    match program(alloc, core, periods, stoch, frame, listed) {
        Err(MakeFault::Unfit) => Err(JoinFault::Wide { reach: CAP }),
        Err(MakeFault::Memory) => Err(JoinFault::Memory),
        Ok(program) => reached(
            alloc, core, periods, stoch, options, program, total, nonleaf,
        ),
    }
}

// The run of so many scenarios.
fn listed(
    alloc: Global,
    core: &Core,
    periods: &Periods,
    stoch: &Stoch,
    options: &Options,
    count: usize,
    nonleaf: u32,
) -> Result<Run, JoinFault>
    requires can { CanJoin core.now periods.now stoch.now options.now }
    requires timely { IsTimely (source_of core.now periods.now stoch.now options.now) }
    requires few { is_crowded (source_of core.now periods.now stoch.now options.now) ≡ false }
    requires cells { has_many_cells count (length core.now.columns) (length core.now.rows) nonleaf
        ≡ false }
    requires count { count ≡ count_of stoch.now }
    requires nonleaf { nonleaf ≡ nonleaf_of (source_of core.now periods.now stoch.now options.now) }
    ensures { Joins result (source_of core.now periods.now stoch.now options.now) options.now }
{
    let Ok(frame) = frame(alloc, core, periods, stoch, options.missing) else {
        return Err(JoinFault::Memory);
    };
    let Ok(live) = live_columns(alloc, &frame.sides) else {
        return Err(JoinFault::Memory);
    };
    match scenarios(alloc, stoch, live.as_slice(), count, MAX_CELLS) {
        Err(ListFault::TooManyEntries) => Err(JoinFault::TooManyCells),
        Err(ListFault::Memory) => Err(JoinFault::Memory),
        Ok(listed) => weighed(
            alloc, core, periods, stoch, options, &frame, &listed, nonleaf,
        ),
    }
}

/// The run of a core, its periods, a stoch file and some options: missing ends
/// of boxes are filled in by `options.missing`, costs and rows are scaled by
/// their common powers of ten, and there are no more ranks than scenarios.
///
/// The refusals come in this order, each exactly where its cause holds:
/// `Anticipates`, `TooManyScenarios`, `TooManyCells`, `Wide`.
pub fn join(
    alloc: Global,
    core: &Core,
    periods: &Periods,
    stoch: &Stoch,
    options: &Options,
) -> Result<Run, JoinFault>
    requires options { OptionFacts options.now }
    requires columns { 0 < length core.now.columns }
    requires stoch { StochFacts core.now periods.now stoch.now }
    ensures { Joins result (source_of core.now periods.now stoch.now options.now) options.now }
{
    if let Some(line) = first_early(periods, core.entries.as_slice()) {
        return Err(JoinFault::Anticipates { line });
    }
    let Ok(count) = scenario_count(stoch) else {
        return Err(JoinFault::TooManyScenarios);
    };
    let columns = core.columns.len();
    let nonleaf = nonleaf(periods, columns as u32);
    if has_many_cells(count, columns, core.rows.len(), nonleaf as usize) {
        return Err(JoinFault::TooManyCells);
    }
    listed(alloc, core, periods, stoch, options, count, nonleaf)
}
