ghost use Rattle.std.specs.Prelude.{◌≡◌, ◌-◌, ◌≤◌, ◌<◌, [], true, false, Some, length, IfOk, OnOk};
ghost use Rattle.smps_words.specs.CoreFacts.{max_columns, max_rows};
ghost use Rattle.smps_words.specs.PeriodFacts.{max_periods, min_periods};
ghost use Rattle.smps_words.specs.Tables.{Passes};
ghost use Rattle.smps_words.specs.TextLines.{text_of};
ghost use Rattle.smps_time.specs.Reading.{before_in, GoesTo, IsPeriodOf, Keeps, MayBegin, StepsOver};
ghost use Rattle.smps_time.specs.TimeAnswers.{names_of};
ghost use Rattle.smps_time.specs.TimeFile.{end_fault, header_fault, is_after_last, is_in_order, period_fault};

use crate::name_lookups::{column_named, place_named, says_explicit};
use crate::time_fault::{TimeFault, TimeKind};
use line_core::Names;
use smps_words::{Core, FileLine};
use std::alloc::Global;
use wide_num::{List, same};

const MIN_PERIODS: usize = 2;

const MAX_PERIODS: usize = 8;

/// What the lines so far say: whether there is one, whether PERIODS is among
/// them, and the name, the first column and the place of the first row of each
/// period. The objective has the place 0, and constraint rows count from 1.
#[derive(Drop)]
pub struct Reading {
    pub begun: bool,
    pub opened: bool,
    pub names: Names,
    pub columns: List<u32>,
    pub places: List<u32>,
}

fn is_after_last(numbers: &[u32], number: u32) -> bool
    ensures { result ≡ is_after_last numbers.now number }
{
    match numbers.last() {
        Some(last) => *last < number,
        None => 0 < number,
    }
}

impl Reading {
    /// What no lines say. It takes no memory.
    pub fn new(alloc: Global) -> Reading
        ensures { result
            ≡ record { begun = false; opened = false; names = []; columns = []; places = [] } }
    {
        Reading {
            begun: false,
            opened: false,
            names: Names::new(alloc),
            columns: List::new(alloc),
            places: List::new(alloc),
        }
    }

    fn end_fault(&self, line: &FileLine) -> Option<TimeKind>
        ensures { result ≡ end_fault (before_in self.now) (text_of line.now) }
    {
        if !self.opened {
            return Some(TimeKind::Section);
        }
        if line.count() != 1 {
            return Some(TimeKind::Fields);
        }
        if self.names.len() < MIN_PERIODS {
            return Some(TimeKind::Limit);
        }
        None
    }

    fn header_fault(&self, line: &FileLine) -> Option<TimeKind>
        ensures { result ≡ header_fault (before_in self.now) (text_of line.now) }
    {
        let word = line.field(0);
        if same(word, b"TIME") {
            return if self.begun {
                Some(TimeKind::Section)
            } else {
                None
            };
        }
        if same(word, b"PERIODS") {
            return if self.opened || says_explicit(line) {
                Some(TimeKind::Section)
            } else {
                None
            };
        }
        if same(word, b"ENDATA") {
            return self.end_fault(line);
        }
        Some(TimeKind::Section)
    }

    fn is_in_order(&self, column: u32, place: u32) -> bool
        ensures { result ≡ is_in_order (before_in self.now) column place }
    {
        if self.columns.len() == 0 {
            return column == 0 && place <= 1;
        }
        is_after_last(self.columns.as_slice(), column)
            && is_after_last(self.places.as_slice(), place)
    }

    // The first column and the place of the first row of the period that a line names.
    fn period_of(&self, core: &Core, line: &FileLine) -> Result<(u32, u32), TimeKind>
        ensures passes { Passes (period_fault (names_of core.now) (before_in self.now)
            (text_of line.now))
            result (IsPeriodOf (names_of core.now) (text_of line.now)) }
        ensures begins { IfOk result (MayBegin (before_in self.now)) }
    {
        if !self.opened {
            return Err(TimeKind::Section);
        }
        if line.count() != 3 {
            return Err(TimeKind::Fields);
        }
        let Some(column) = column_named(core, line) else {
            return Err(TimeKind::Unknown);
        };
        let Some(place) = place_named(core, line) else {
            return Err(TimeKind::Unknown);
        };
        if self.names.find(line.field(2)).is_some() {
            return Err(TimeKind::Twice);
        }
        if !self.is_in_order(column, place) {
            return Err(TimeKind::Order);
        }
        if MAX_PERIODS <= self.names.len() {
            return Err(TimeKind::Limit);
        }
        Ok((column, place))
    }

    fn period_line(&mut self, core: &Core, line: &FileLine) -> Result<bool, TimeFault>
        requires data { line.now.line.now.header ≡ false }
        requires keeps { Keeps self.old }
        ensures steps { StepsOver core.now line.now self.old result self.new }
        ensures keeps { OnOk result (Keeps self.new) }
    {
        let (column, place) = match self.period_of(core, line) {
            Ok(period) => period,
            Err(kind) => return Err(TimeFault::At {
                line: line.line.number,
                kind,
            }),
        };
        let Ok(_) = self.names.add(line.field(2)) else {
            return Err(TimeFault::Memory);
        };
        let Ok(_) = self.columns.push(column) else {
            return Err(TimeFault::Memory);
        };
        let Ok(_) = self.places.push(place) else {
            return Err(TimeFault::Memory);
        };
        self.begun = true;
        Ok(false)
    }

    fn header_line(&mut self, core: &Core, line: &FileLine) -> Result<bool, TimeKind>
        requires header { line.now.line.now.header ≡ true }
        requires keeps { Keeps self.old }
        ensures passes { Passes (header_fault (before_in self.old) (text_of line.now))
            result
            (GoesTo (names_of core.now) (before_in self.old) (text_of line.now)
            (before_in self.new)) }
        ensures keeps { Keeps self.new }
        ensures some { IfOk result (λ ended. ended ≡ true → min_periods ≤ length self.new.names) }
    {
        if let Some(kind) = self.header_fault(line) {
            return Err(kind);
        }
        self.begun = true;
        self.opened = self.opened || line.is_header(b"PERIODS");
        Ok(line.is_header(b"ENDATA"))
    }

    /// Goes on with a line, and answers whether it ends the file. A fault is
    /// the line's first one.
    pub fn step(&mut self, core: &Core, line: &FileLine) -> Result<bool, TimeFault>
        requires { Keeps self.old }
        ensures steps { StepsOver core.now line.now self.old result self.new }
        ensures keeps { OnOk result (Keeps self.new) }
        ensures some { IfOk result (λ ended. ended ≡ true → min_periods ≤ length self.new.names) }
    {
        if line.line.header {
            return match self.header_line(core, line) {
                Ok(ended) => Ok(ended),
                Err(kind) => Err(TimeFault::At {
                    line: line.line.number,
                    kind,
                }),
            };
        }
        self.period_line(core, line)
    }
}
