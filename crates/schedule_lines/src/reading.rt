ghost use Rattle.std.specs.Prelude.{◌≡◌, [], ◌∷◌, OnOk};
ghost use Rattle.schedule_lines.specs.Schedules.{turn_behind, words_of};
ghost use Rattle.schedule_lines.specs.ReadingSteps.{IsCounted, ReadsOn};

use crate::schedule::{Crew, Turn};
use crate::schedule_fault::{ScheduleFault, ScheduleKind};
use crate::turn_word::turn_of;
use line_core::Line;
use std::alloc::Global;
use wide_num::List;

/// The greatest number of steps of all turns together.
const MAX_SUM: u64 = 10_000_000;

/// The turns of the words so far, and how many steps they have together.
#[derive(Drop)]
pub struct Reading {
    pub turns: List<Turn>,
    pub total: u64,
}

impl Reading {
    /// What no words say. It takes no memory.
    pub fn new(alloc: Global) -> Reading
        ensures turns { result.turns ≡ [] }
        ensures counted { IsCounted result }
    {
        Reading {
            turns: List::new(alloc),
            total: 0,
        }
    }

    // The turn of a word behind the turns so far.
    fn turn_behind(&self, crew: Crew, word: &[u8]) -> Result<Turn, ScheduleKind>
        requires { IsCounted self.now }
        ensures { result ≡ turn_behind crew self.now.turns word.now }
    {
        let turn = match turn_of(crew, word) {
            Ok(turn) => turn,
            Err(kind) => return Err(kind),
        };
        if MAX_SUM < self.total + u64::from(turn.count) {
            return Err(ScheduleKind::Limit);
        }
        Ok(turn)
    }

    // Goes on with a word of a line.
    fn add_word(&mut self, crew: Crew, line: u64, word: &[u8]) -> Result<(), ScheduleFault>
        requires { IsCounted self.old }
        ensures reads { ReadsOn crew self.old
            (record { line = line; text = word.now } ∷ []) result self.new }
        ensures counted { OnOk result (IsCounted self.new) }
    {
        let turn = match self.turn_behind(crew, word) {
            Ok(turn) => turn,
            Err(kind) => return Err(ScheduleFault::At { line, kind }),
        };
        let Ok(()) = self.turns.push(turn) else {
            return Err(ScheduleFault::Memory);
        };
        self.total += u64::from(turn.count);
        Ok(())
    }

    /// Goes on with the words of a line. `At` is the line's first word with a
    /// fault. `Memory` comes only where the line has a word.
    pub fn add_line(&mut self, crew: Crew, bytes: &[u8], line: &Line) -> Result<(), ScheduleFault>
        requires { IsCounted self.old }
        ensures reads { ReadsOn crew self.old (words_of bytes.now line.now) result self.new }
        ensures counted { OnOk result (IsCounted self.new) }
    {
        for span in line.fields.as_slice() {
            self.add_word(crew, line.number, span.text(bytes))?;
        }
        Ok(())
    }
}
