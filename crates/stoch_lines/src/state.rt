ghost use Rattle.std.specs.Prelude.{◌≡◌, OnOk};
ghost use Rattle.stoch_lines.specs.Before.{with_element, with_saying, nothing_said};
ghost use Rattle.stoch_lines.specs.Faults.{own_period};
ghost use Rattle.stoch_lines.specs.Sayings.{element_of, last_element};
ghost use Rattle.stoch_lines.specs.Turns.{before_in};

use crate::entries::Entries;
use crate::heading::Heading;
use crate::places::Source;
use crate::sources::Sources;
use dec_core::Decimal;
use line_core::Names;
use std::alloc::{AllocError, Global};
use wide_num::List;

/// A realisation: the number of its element, and its probability.
#[derive(Clone, Copy, Debug, Drop, PartialEq, Eq)]
pub struct Chosen {
    pub element: usize,
    pub probability: Decimal,
}

/// The line that begins a scenario: the number of its parent, none for the
/// core, its probability and its period.
#[derive(Clone, Copy, Debug, Drop, PartialEq, Eq)]
pub struct ScenarioHead {
    pub parent: Option<u32>,
    pub probability: Decimal,
    pub period: u8,
}

/// What a line says of an element: which one it is, its period if the line is
/// its first, and the probability of the realisation that the line begins.
#[derive(Clone, Copy, Debug, Drop)]
pub struct Saying {
    pub source: Source,
    pub period: u8,
    pub probability: Decimal,
}

/// What the lines of a stoch file have said so far.
#[derive(Drop)]
pub struct State {
    pub nothing: bool,
    pub section: Option<Heading>,
    pub begun: bool,
    pub blocks: Names,
    pub sources: Sources,
    pub periods: List<u8>,
    pub realisations: List<Chosen>,
    pub entries: Entries,
    pub scenarios: List<ScenarioHead>,
    pub names: Names,
}

impl State {
    /// No lines. It takes no memory.
    pub fn new(alloc: Global) -> State
        ensures { before_in result ≡ nothing_said }
    {
        State {
            nothing: true,
            section: None,
            begun: false,
            blocks: Names::new(alloc),
            sources: Sources::new(alloc),
            periods: List::new(alloc),
            realisations: List::new(alloc),
            entries: Entries::new(alloc),
            scenarios: List::new(alloc),
            names: Names::new(alloc),
        }
    }

    /// The period of the element of this number: its own, or the one said where
    /// it is new.
    pub fn own_period(&self, saying: &Saying, element: usize) -> u8
        requires { element ≡ element_of self.now.sources saying.now.source }
        ensures { result ≡ own_period (before_in self.now) saying.now }
    {
        match self.periods.as_slice().get(element) {
            Some(period) => *period,
            None => saying.period,
        }
    }

    /// The number of the element of the last realisation.
    pub fn last_element(&self) -> usize
        ensures { result ≡ last_element self.now.realisations }
    {
        match self.realisations.as_slice().last() {
            Some(realisation) => realisation.element,
            None => 0,
        }
    }

    fn add_element(&mut self, saying: &Saying, element: usize) -> Result<(), AllocError>
        requires { element ≡ element_of self.old.sources saying.now.source }
        ensures { OnOk result (before_in self.new ≡ with_element (before_in self.old) saying.now) }
    {
        if element != self.sources.len() {
            return Ok(());
        }
        if self.sources.add(saying.source)? {
            self.periods.push(saying.period)?;
        }
        Ok(())
    }

    /// Appends a realisation of the element of this number, which may be new.
    pub fn add_realisation(&mut self, saying: &Saying, element: usize) -> Result<(), AllocError>
        requires { element ≡ element_of self.old.sources saying.now.source }
        ensures { OnOk result (before_in self.new ≡ with_saying (before_in self.old) saying.now) }
    {
        self.add_element(saying, element)?;
        self.realisations.push(Chosen {
            element,
            probability: saying.probability,
        })
    }
}
