ghost use Rattle.std.specs.Prelude.{◌≡◌, Some, true, false, OnOk, map, slice_index_or};
ghost use Rattle.std.specs.List.{list_any};
ghost use Rattle.smps_words.specs.declared.core_file.Core.{Core};
ghost use Rattle.smps_words.specs.Tables.{Passes};
ghost use Rattle.smps_words.specs.TextLines.{text_of};
ghost use Rattle.stoch_lines.specs.declared.heading.Heading.TheVariants.{Blocks};
ghost use Rattle.stoch_lines.specs.Before.{with_block, with_entries, with_saying};
ghost use Rattle.stoch_lines.specs.Faults.{block_form, block_rules, block_fault, block_data_fault, is_taken, is_twice_in_block};
ghost use Rattle.stoch_lines.specs.Sayings.{begins_block, block_number, element_of, last_element, owned_by, with_name};
ghost use Rattle.stoch_lines.specs.Turns.{before_in, pair_entries, pair_places, Adds, AreBlockFields};

use crate::entries::Owned;
use crate::fields::{fault_at, known_period, probability_of};
use crate::kinds::{StochFault, StochKind};
use crate::pairs::{Pairs, is_repeated, pairs_of, places_rules};
use crate::places::Source;
use crate::state::{Saying, State};
use dec_core::Decimal;
use line_core::Names;
use smps_words::{Core, FileLine, Periods};
use std::alloc::AllocError;

/// The greatest number of blocks that there is memory for.
const MAX_BLOCKS: usize = 4294967295;

/// The period and the probability of a line that begins a realisation.
#[derive(Clone, Copy, Debug, Drop)]
struct BlockFields {
    period: u8,
    probability: Decimal,
}

fn fields_of(periods: &Periods, line: &FileLine<'_>) -> Result<BlockFields, StochKind>
    ensures { Passes (block_form periods.now (text_of line.now)) result
        (λ f. AreBlockFields periods.now (text_of line.now) f.period f.probability) }
{
    if line.count() != 4 {
        return Err(StochKind::Fields);
    }
    let period = known_period(periods, line.field(2))?;
    let probability = probability_of(line.field(3))?;
    Ok(BlockFields {
        period,
        probability,
    })
}

fn rules(state: &State, saying: &Saying, element: usize) -> Result<(), StochKind>
    requires { element ≡ element_of state.now.sources saying.now.source }
    ensures { Passes (block_rules (before_in state.now) saying.now) result (λ _. Unit {0}) }
{
    let period = state.own_period(saying, element);
    if period == 1 {
        return Err(StochKind::EarlyEntry);
    }
    if saying.period != period {
        return Err(StochKind::Clash);
    }
    Ok(())
}

fn add_name(names: &mut Names, name: &[u8]) -> Result<(), AllocError>
    ensures { OnOk result (names.new ≡ with_name names.old name.now) }
{
    if let Some(_) = names.find(name) {
        return Ok(());
    }
    if names.len() >= MAX_BLOCKS {
        return Err(AllocError);
    }
    match names.add(name) {
        Ok(_) => Ok(()),
        Err(_) => Err(AllocError),
    }
}

impl State {
    fn block_number(&self, line: &FileLine<'_>) -> usize
        ensures { result ≡ block_number self.now.blocks (text_of line.now) }
    {
        match self.blocks.find(line.field(1)) {
            Some(number) => number as usize,
            None => self.blocks.len(),
        }
    }

    fn begin_realisation(
        &mut self,
        name: &[u8],
        saying: &Saying,
        element: usize,
    ) -> Result<(), AllocError>
        requires { element ≡ element_of self.old.sources saying.now.source }
        ensures { OnOk result
            (before_in self.new ≡ with_saying (with_block (before_in self.old) name.now)
            saying.now) }
    {
        add_name(&mut self.blocks, name)?;
        self.add_realisation(saying, element)
    }

    /// A line of BLOCKS that begins a realisation.
    pub fn block_line(&mut self, periods: &Periods, line: &FileLine<'_>) -> Result<(), StochFault>
        requires section { self.old.section ≡ Some Blocks }
        requires data { line.now.line.now.header ≡ false }
        requires word { begins_block (text_of line.now) ≡ true }
        ensures { (core : Core) →
            Adds core periods.now (block_fault periods.now) self.old line.now result self.new }
    {
        let fields = match fields_of(periods, line) {
            Ok(fields) => fields,
            Err(kind) => return Err(fault_at(line, kind)),
        };
        let saying = Saying {
            source: Source::Block(self.block_number(line)),
            period: fields.period,
            probability: fields.probability,
        };
        let element = self.sources.element_of(saying.source);
        if let Err(kind) = rules(self, &saying, element) {
            return Err(fault_at(line, kind));
        }
        let Ok(()) = self.begin_realisation(line.field(1), &saying, element) else {
            return Err(StochFault::Memory);
        };
        Ok(())
    }

    /// Appends the entries of a line to those of an element's realisation or of
    /// a scenario.
    pub fn add_pairs(
        &mut self,
        element: usize,
        choice: usize,
        pairs: &Pairs,
    ) -> Result<(), AllocError>
        ensures { OnOk result
            (before_in self.new
            ≡ with_entries (before_in self.old)
            (map (owned_by element choice) (pair_entries pairs.now))) }
    {
        self.entries.push(Owned {
            element,
            choice,
            entry: pairs.first,
        })?;
        if let Some(entry) = pairs.second {
            self.entries.push(Owned {
                element,
                choice,
                entry,
            })?;
        }
        Ok(())
    }

    fn is_twice_in_block(&self, pairs: &Pairs) -> bool
        ensures { result ≡ is_twice_in_block (before_in self.now) (pair_places pairs.now) }
    {
        self.one_is_taken(pairs)
            || is_repeated(
                &self.entries,
                self.realisations.len().saturating_sub(1),
                pairs,
            )
    }

    fn one_is_taken(&self, pairs: &Pairs) -> bool
        ensures { result
            ≡ list_any (is_taken self.now.entries (last_element self.now.realisations))
            (pair_places pairs.now) }
    {
        let element = self.last_element();
        match pairs.second {
            Some(second) => {
                self.entries.is_taken(element, pairs.first.place)
                    || self.entries.is_taken(element, second.place)
            }
            None => self.entries.is_taken(element, pairs.first.place),
        }
    }

    fn block_period(&self) -> u8
        ensures { result ≡ slice_index_or self.now.periods (last_element self.now.realisations) 0 }
    {
        match self.periods.as_slice().get(self.last_element()) {
            Some(period) => *period,
            None => 0,
        }
    }

    /// A line of data in a realisation of a block.
    pub fn block_data_line(
        &mut self,
        core: &Core,
        periods: &Periods,
        line: &FileLine<'_>,
    ) -> Result<(), StochFault>
        requires section { self.old.section ≡ Some Blocks }
        requires data { line.now.line.now.header ≡ false }
        requires word { begins_block (text_of line.now) ≡ false }
        ensures { Adds core.now periods.now (block_data_fault core.now periods.now) self.old
            line.now result self.new }
    {
        let pairs = match pairs_of(core, line) {
            Ok(pairs) => pairs,
            Err(kind) => return Err(fault_at(line, kind)),
        };
        let twice = self.is_twice_in_block(&pairs);
        if let Err(kind) = places_rules(periods, self.block_period(), twice, &pairs) {
            return Err(fault_at(line, kind));
        }
        let choice = self.realisations.len().saturating_sub(1);
        let Ok(()) = self.add_pairs(self.last_element(), choice, &pairs) else {
            return Err(StochFault::Memory);
        };
        Ok(())
    }
}
