ghost use Rattle.std.specs.Prelude.{◌≡◌, ◌++◌, ◌∷◌, [], ◌<◌, ◌^◌, map, IfErr, IfOk, OnOk};
ghost use Rattle.std.specs.List.{All, Any};
ghost use Rattle.scenario_lists.specs.declared.data.ScenarioData.{ScenarioData};
ghost use Rattle.stoch_lines.specs.declared.places.StochEntry.{StochEntry};
ghost use Rattle.smps_stoch.specs.StochFacts.{IsPlace};
ghost use Rattle.join_words.specs.Parts.{parts_of};
ghost use Rattle.join_words.specs.RunOf.{scenario_of};
ghost use Rattle.join_numbers.specs.Changing.{IsFrameOf};
ghost use Rattle.join_numbers.specs.UnfitNumbers.{ByUnfit, IsLargeScenario};

use crate::changes::changes;
use crate::fault::MakeFault;
use join_words::Frame;
use scenario_lists::ScenarioData;
use smps_words::Core;
use sp_model::Scenario;
use std::alloc::Global;
use wide_num::List;

// One more scenario.
fn push(
    scenarios: &mut List<Scenario>,
    alloc: Global,
    core: &Core,
    frame: &Frame,
    listed: &ScenarioData,
) -> Result<(), MakeFault>
    requires frame { IsFrameOf core.now frame.now }
    requires there { All (λ (e : StochEntry). IsPlace core.now e.place) listed.now.entries }
    requires weight { listed.now.weight < 2 ^ 127 }
    ensures ok { OnOk result
        (scenarios.new ≡ scenarios.old ++ scenario_of (parts_of core.now) frame.now listed.now
        ∷ []) }
    ensures err { IfErr result
        (ByUnfit (IsLargeScenario (scenario_of (parts_of core.now) frame.now listed.now))) }
{
    match changes(alloc, core, frame, listed.entries.as_slice()) {
        Err(fault) => Err(fault),
        Ok(changes) => {
            scenarios.push(Scenario {
                weight: listed.weight as i128,
                changes,
            })?;
            Ok(())
        }
    }
}

/// The scenarios of the run, each with its weight and with what its values
/// change.
pub fn run_scenarios(
    alloc: Global,
    core: &Core,
    frame: &Frame,
    listed: &[ScenarioData],
) -> Result<List<Scenario>, MakeFault>
    requires frame { IsFrameOf core.now frame.now }
    requires there { All
        (λ (s : ScenarioData). All (λ (e : StochEntry). IsPlace core.now e.place) s.entries)
        listed.now }
    requires weights { All (λ (s : ScenarioData). s.weight < 2 ^ 127) listed.now }
    ensures ok { IfOk result
        (λ scenarios. scenarios ≡ map (scenario_of (parts_of core.now) frame.now) listed.now) }
    ensures err { IfErr result
        (ByUnfit
        (Any IsLargeScenario (map (scenario_of (parts_of core.now) frame.now) listed.now))) }
{
    let mut scenarios = List::new(alloc);
    for one in listed {
        push(&mut scenarios, alloc, core, frame, one)?;
    }
    Ok(scenarios)
}
