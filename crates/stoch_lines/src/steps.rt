ghost use Rattle.std.specs.Prelude.{◌≡◌, Some, false};
ghost use Rattle.smps_words.specs.TextLines.{text_of};
ghost use Rattle.stoch_lines.specs.declared.heading.Heading.TheVariants.{Blocks, Scenarios};
ghost use Rattle.stoch_lines.specs.Faults.{blocks_fault, data_fault, scenarios_fault};
ghost use Rattle.stoch_lines.specs.Turns.{before_in, Adds, Steps};

use crate::fields::{begins_block, begins_scenario, fault_at};
use crate::heading::Heading;
use crate::kinds::{StochFault, StochKind};
use crate::state::State;
use smps_words::{Core, FileLine, Periods};

impl State {
    fn line_of_blocks(
        &mut self,
        core: &Core,
        periods: &Periods,
        line: &FileLine<'_>,
    ) -> Result<(), StochFault>
        requires section { self.old.section ≡ Some Blocks }
        requires data { line.now.line.now.header ≡ false }
        ensures { Adds core.now periods.now (blocks_fault core.now periods.now) self.old line.now
            result self.new }
    {
        if begins_block(line) {
            return self.block_line(periods, line);
        }
        if !self.begun {
            return Err(fault_at(line, StochKind::Section));
        }
        self.block_data_line(core, periods, line)
    }

    fn line_of_scenarios(
        &mut self,
        core: &Core,
        periods: &Periods,
        line: &FileLine<'_>,
    ) -> Result<(), StochFault>
        requires section { self.old.section ≡ Some Scenarios }
        requires data { line.now.line.now.header ≡ false }
        ensures { Adds core.now periods.now (scenarios_fault core.now periods.now) self.old line.now
            result self.new }
    {
        if begins_scenario(line) {
            return self.scenario_line(periods, line);
        }
        if !self.begun {
            return Err(fault_at(line, StochKind::Section));
        }
        self.scenario_data_line(core, periods, line)
    }

    fn data_line(
        &mut self,
        core: &Core,
        periods: &Periods,
        line: &FileLine<'_>,
    ) -> Result<(), StochFault>
        requires data { line.now.line.now.header ≡ false }
        ensures { Adds core.now periods.now (data_fault core.now periods.now self.old.section)
            self.old line.now result self.new }
    {
        match self.section {
            None => Err(fault_at(line, StochKind::Section)),
            Some(Heading::Indep) => self.indep_line(core, periods, line),
            Some(Heading::Blocks) => self.line_of_blocks(core, periods, line),
            Some(Heading::Scenarios) => self.line_of_scenarios(core, periods, line),
        }
    }

    /// Reads one more line, and answers whether it ends the file.
    pub fn step(
        &mut self,
        core: &Core,
        periods: &Periods,
        line: &FileLine<'_>,
    ) -> Result<bool, StochFault>
        ensures { Steps core.now periods.now (before_in self.old) (text_of line.now) result
            (before_in self.new) }
    {
        if line.line.header {
            return self.header_line(line);
        }
        self.data_line(core, periods, line)?;
        self.nothing = false;
        if begins_block(line) || begins_scenario(line) {
            self.begun = true;
        }
        Ok(false)
    }
}
