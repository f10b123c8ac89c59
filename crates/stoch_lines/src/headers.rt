ghost use Rattle.std.specs.Prelude.{◌≡◌, true};
ghost use Rattle.smps_words.specs.Tables.{Passes};
ghost use Rattle.smps_words.specs.TextLines.{text_of};
ghost use Rattle.smps_words.specs.declared.core_file.Core.{Core};
ghost use Rattle.smps_words.specs.declared.periods.Periods.{Periods};
ghost use Rattle.stoch_lines.specs.Faults.{has_both_modes, has_mode, has_one_mode, header_fault, may_follow, section_fault};
ghost use Rattle.stoch_lines.specs.Sayings.{heading_of};
ghost use Rattle.stoch_lines.specs.Turns.{before_in, Steps};

use crate::fields::fault_at;
use crate::heading::Heading;
use crate::kinds::{StochFault, StochKind};
use crate::state::State;
use smps_words::FileLine;
use wide_num::same;

fn heading_of(word: &[u8]) -> Option<Heading>
    ensures { result ≡ heading_of word.now }
{
    if same(word, b"INDEP") {
        return Some(Heading::Indep);
    }
    if same(word, b"BLOCKS") {
        return Some(Heading::Blocks);
    }
    if same(word, b"SCENARIOS") {
        return Some(Heading::Scenarios);
    }
    None
}

fn may_follow(heading: Option<Heading>, section: Option<Heading>) -> bool
    ensures { result ≡ may_follow heading section }
{
    match (heading, section) {
        (None, _) => false,
        (Some(Heading::Scenarios), before) => before.is_none(),
        (Some(_), Some(Heading::Scenarios)) => false,
        (Some(_), _) => true,
    }
}

fn has_one_mode(line: &FileLine<'_>) -> bool
    ensures { result ≡ has_one_mode (text_of line.now) }
{
    line.count() == 2 && (same(line.field(1), b"DISCRETE") || same(line.field(1), b"REPLACE"))
}

fn has_both_modes(line: &FileLine<'_>) -> bool
    ensures { result ≡ has_both_modes (text_of line.now) }
{
    line.count() == 3 && (same(line.field(1), b"DISCRETE") && same(line.field(2), b"REPLACE"))
}

fn has_mode(line: &FileLine<'_>) -> bool
    ensures { result ≡ has_mode (text_of line.now) }
{
    line.count() == 1 || (has_one_mode(line) || has_both_modes(line))
}

fn section_rules(section: Option<Heading>, line: &FileLine<'_>) -> Result<(), StochKind>
    ensures { Passes (section_fault section (text_of line.now)) result (λ _. Unit {0}) }
{
    if !may_follow(heading_of(line.field(0)), section) {
        return Err(StochKind::Section);
    }
    if !has_mode(line) {
        return Err(StochKind::Mode);
    }
    Ok(())
}

impl State {
    fn header_rules(&self, line: &FileLine<'_>) -> Result<(), StochKind>
        ensures { Passes (header_fault (before_in self.now) (text_of line.now)) result
            (λ _. Unit {0}) }
    {
        if line.is_header(b"STOCH") {
            if !self.nothing {
                return Err(StochKind::Section);
            }
            return Ok(());
        }
        if line.is_header(b"ENDATA") {
            if line.count() != 1 {
                return Err(StochKind::Fields);
            }
            return Ok(());
        }
        section_rules(self.section, line)
    }

    /// A header; the answer is whether it ends the file.
    pub fn header_line(&mut self, line: &FileLine<'_>) -> Result<bool, StochFault>
        requires header { line.now.line.now.header ≡ true }
        ensures { (core : Core) (periods : Periods) →
            Steps core periods (before_in self.old) (text_of line.now) result (before_in self.new) }
    {
        if let Err(kind) = self.header_rules(line) {
            return Err(fault_at(line, kind));
        }
        self.nothing = false;
        self.section = heading_of(line.field(0));
        self.begun = false;
        Ok(line.is_header(b"ENDATA"))
    }
}
