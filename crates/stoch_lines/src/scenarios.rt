ghost use Rattle.std.specs.Prelude.{◌≡◌, ◌<◌, ◌^◌, ◌||◌, Some, true, false, length, OnOk};
ghost use Rattle.smps_words.specs.Tables.{Passes};
ghost use Rattle.smps_words.specs.TextLines.{text_of};
ghost use Rattle.smps_words.specs.declared.core_file.Core.{Core};
ghost use Rattle.stoch_lines.specs.declared.heading.Heading.TheVariants.{Scenarios};
ghost use Rattle.stoch_lines.specs.Before.{with_scenario};
ghost use Rattle.stoch_lines.specs.Faults.{branching_stage, is_root, is_scenario, max_scenarios, scenario_form, scenario_numbers, scenario_data_fault, scenario_fault};
ghost use Rattle.stoch_lines.specs.Sayings.{begins_scenario};
ghost use Rattle.stoch_lines.specs.Turns.{before_in, Adds, AreScenarioNumbers, IsNewScenario};

use crate::fields::{fault_at, is_root, known_period, probability_of};
use crate::kinds::{StochFault, StochKind};
use crate::pairs::{is_repeated, pairs_of, places_rules};
use crate::state::{ScenarioHead, State};
use dec_core::Decimal;
use smps_words::{Core, FileLine, Periods};
use std::alloc::AllocError;

/// The greatest number of scenarios of a file.
const MAX_SCENARIOS: usize = 4096;

/// The probability and the period of a line that begins a scenario.
#[derive(Clone, Copy, Debug, Drop)]
struct Numbers {
    probability: Decimal,
    period: u8,
}

fn numbers_of(periods: &Periods, line: &FileLine<'_>) -> Result<Numbers, StochKind>
    ensures { Passes (scenario_numbers periods.now (text_of line.now)) result
        (λ n. AreScenarioNumbers periods.now (text_of line.now) n.probability n.period) }
{
    let probability = probability_of(line.field(3))?;
    let period = known_period(periods, line.field(4))?;
    Ok(Numbers {
        probability,
        period,
    })
}

impl State {
    fn is_scenario(&self, name: &[u8]) -> bool
        ensures { result ≡ is_scenario (before_in self.now) name.now }
    {
        self.names.find(name).is_some()
    }

    fn is_parent(&self, name: &[u8]) -> bool
        ensures { result ≡ (is_root name.now || is_scenario (before_in self.now) name.now) }
    {
        is_root(name) || self.is_scenario(name)
    }

    fn is_known_name(&self, name: &[u8]) -> bool
        ensures { result ≡ (is_scenario (before_in self.now) name.now || is_root name.now) }
    {
        self.is_scenario(name) || is_root(name)
    }

    fn scenario_form(&self, line: &FileLine<'_>) -> Result<(), StochKind>
        ensures { Passes (scenario_form (before_in self.now) (text_of line.now)) result
            (λ _. length self.now.names < max_scenarios) }
    {
        if line.count() != 5 {
            return Err(StochKind::Fields);
        }
        if self.names.len() >= MAX_SCENARIOS {
            return Err(StochKind::Limit);
        }
        if !self.is_parent(line.field(2)) {
            return Err(StochKind::Parent);
        }
        Ok(())
    }

    fn scenario_of(&self, periods: &Periods, line: &FileLine<'_>) -> Result<ScenarioHead, StochKind>
        ensures { Passes (scenario_fault periods.now (before_in self.now) (text_of line.now)) result
            (λ s. IsNewScenario periods.now (before_in self.now) (text_of line.now) s) }
    {
        self.scenario_form(line)?;
        let numbers = numbers_of(periods, line)?;
        if self.is_known_name(line.field(1)) {
            return Err(StochKind::Twice);
        }
        Ok(ScenarioHead {
            parent: self.names.find(line.field(2)),
            probability: numbers.probability,
            period: numbers.period,
        })
    }

    fn add_scenario(&mut self, name: &[u8], scenario: ScenarioHead) -> Result<(), AllocError>
        requires few { length self.old.names < 2 ^ 32 }
        requires new { is_scenario (before_in self.old) name.now ≡ false }
        ensures { OnOk result
            (before_in self.new ≡ with_scenario (before_in self.old) name.now scenario) }
    {
        self.scenarios.push(scenario)?;
        match self.names.add(name) {
            Ok(_) => Ok(()),
            Err(_) => Err(AllocError),
        }
    }

    /// A line of SCENARIOS that begins a scenario.
    pub fn scenario_line(
        &mut self,
        periods: &Periods,
        line: &FileLine<'_>,
    ) -> Result<(), StochFault>
        requires section { self.old.section ≡ Some Scenarios }
        requires data { line.now.line.now.header ≡ false }
        requires word { begins_scenario (text_of line.now) ≡ true }
        ensures { (core : Core) →
            Adds core periods.now (scenario_fault periods.now) self.old line.now result self.new }
    {
        let scenario = match self.scenario_of(periods, line) {
            Ok(scenario) => scenario,
            Err(kind) => return Err(fault_at(line, kind)),
        };
        let Ok(()) = self.add_scenario(line.field(1), scenario) else {
            return Err(StochFault::Memory);
        };
        Ok(())
    }

    fn branching_stage(&self) -> u8
        ensures { result ≡ branching_stage self.now.scenarios }
    {
        match self.scenarios.as_slice().last() {
            Some(scenario) => scenario.period.max(2),
            None => 2,
        }
    }

    /// A line of data in a scenario.
    pub fn scenario_data_line(
        &mut self,
        core: &Core,
        periods: &Periods,
        line: &FileLine<'_>,
    ) -> Result<(), StochFault>
        requires section { self.old.section ≡ Some Scenarios }
        requires data { line.now.line.now.header ≡ false }
        requires word { begins_scenario (text_of line.now) ≡ false }
        ensures { Adds core.now periods.now (scenario_data_fault core.now periods.now) self.old
            line.now result self.new }
    {
        let pairs = match pairs_of(core, line) {
            Ok(pairs) => pairs,
            Err(kind) => return Err(fault_at(line, kind)),
        };
        let choice = self.scenarios.len().saturating_sub(1);
        let twice = is_repeated(&self.entries, choice, &pairs);
        if let Err(kind) = places_rules(periods, self.branching_stage(), twice, &pairs) {
            return Err(fault_at(line, kind));
        }
        let Ok(()) = self.add_pairs(0, choice, &pairs) else {
            return Err(StochFault::Memory);
        };
        Ok(())
    }
}
