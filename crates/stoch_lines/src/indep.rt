ghost use Rattle.std.specs.Prelude.{◌≡◌, Some, false, OnOk};
ghost use Rattle.smps_words.specs.Tables.{Passes};
ghost use Rattle.smps_words.specs.TextLines.{text_of};
ghost use Rattle.stoch_lines.specs.declared.heading.Heading.TheVariants.{Indep};
ghost use Rattle.stoch_lines.specs.Before.{with_single};
ghost use Rattle.stoch_lines.specs.Faults.{named_fault, indep_form, indep_rules, indep_fault};
ghost use Rattle.stoch_lines.specs.Sayings.{element_of, named_period, saying_at};
ghost use Rattle.stoch_lines.specs.Turns.{before_in, Adds, AreIndepFields};

use crate::entries::Owned;
use crate::fields::{fault_at, known_period, last_field, probability_of};
use crate::kinds::{StochFault, StochKind};
use crate::pairs::pair_of;
use crate::place_words::{anticipates, first_column, stage_of_place};
use crate::places::{Source, StochEntry};
use crate::state::{Saying, State};
use dec_core::Decimal;
use smps_words::{Core, FileLine, Periods};
use std::alloc::AllocError;

/// The fields of a line of INDEP.
#[derive(Clone, Copy, Debug, Drop)]
struct IndepFields {
    entry: StochEntry,
    named: Option<u8>,
    probability: Decimal,
}

fn named_of(periods: &Periods, line: &FileLine<'_>) -> Result<Option<u8>, StochKind>
    ensures { Passes (named_fault periods.now (text_of line.now)) result
        (λ n. n ≡ named_period periods.now (text_of line.now)) }
{
    if line.count() != 5 {
        return Ok(None);
    }
    let period = known_period(periods, line.field(3))?;
    Ok(Some(period))
}

fn fields_of(core: &Core, periods: &Periods, line: &FileLine<'_>) -> Result<IndepFields, StochKind>
    ensures { Passes (indep_form core.now periods.now (text_of line.now)) result
        (λ f. AreIndepFields core.now periods.now (text_of line.now) f.entry f.named
        f.probability) }
{
    let count = line.count();
    if count != 4 && count != 5 {
        return Err(StochKind::Fields);
    }
    let column = first_column(core, line);
    let entry = pair_of(core, column, 1, line)?;
    let named = named_of(periods, line)?;
    let probability = probability_of(last_field(line))?;
    Ok(IndepFields {
        entry,
        named,
        probability,
    })
}

fn saying_of(periods: &Periods, fields: &IndepFields) -> Saying
    ensures { result
        ≡ saying_at periods.now fields.now.entry.place fields.now.named fields.now.probability }
{
    let place = fields.entry.place;
    Saying {
        source: Source::Place(place),
        period: match fields.named {
            Some(period) => period,
            None => stage_of_place(periods, place),
        },
        probability: fields.probability,
    }
}

fn rules(
    periods: &Periods,
    state: &State,
    fields: &IndepFields,
    saying: &Saying,
    element: usize,
) -> Result<(), StochKind>
    requires { element ≡ element_of state.now.sources saying.now.source }
    ensures { Passes
        (indep_rules periods.now (before_in state.now) fields.now.entry.place fields.now.named
        saying.now) result (λ _. Unit {0}) }
{
    let place = fields.entry.place;
    let period = state.own_period(saying, element);
    if anticipates(periods, place) {
        return Err(StochKind::Anticipates);
    }
    if period == 1 || stage_of_place(periods, place) < period {
        return Err(StochKind::EarlyEntry);
    }
    if fields.named.unwrap_or(period) != period {
        return Err(StochKind::Clash);
    }
    if state.entries.is_taken(element, place) {
        return Err(StochKind::Twice);
    }
    Ok(())
}

impl State {
    fn add_single(
        &mut self,
        saying: &Saying,
        element: usize,
        entry: StochEntry,
    ) -> Result<(), AllocError>
        requires { element ≡ element_of self.old.sources saying.now.source }
        ensures { OnOk result
            (before_in self.new ≡ with_single (before_in self.old) saying.now entry) }
    {
        let choice = self.realisations.len();
        self.add_realisation(saying, element)?;
        self.entries.push(Owned {
            element,
            choice,
            entry,
        })
    }

    /// A line of INDEP.
    pub fn indep_line(
        &mut self,
        core: &Core,
        periods: &Periods,
        line: &FileLine<'_>,
    ) -> Result<(), StochFault>
        requires section { self.old.section ≡ Some Indep }
        requires data { line.now.line.now.header ≡ false }
        ensures { Adds core.now periods.now (indep_fault core.now periods.now) self.old line.now
            result self.new }
    {
        let fields = match fields_of(core, periods, line) {
            Ok(fields) => fields,
            Err(kind) => return Err(fault_at(line, kind)),
        };
        let saying = saying_of(periods, &fields);
        let element = self.sources.element_of(saying.source);
        if let Err(kind) = rules(periods, self, &fields, &saying, element) {
            return Err(fault_at(line, kind));
        }
        let Ok(()) = self.add_single(&saying, element, fields.entry) else {
            return Err(StochFault::Memory);
        };
        Ok(())
    }
}
