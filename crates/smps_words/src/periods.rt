ghost use Rattle.std.specs.Prelude.{◌≡◌, ◌≤◌, length};
ghost use Rattle.smps_words.specs.PeriodFacts.{PeriodFacts, max_periods};
ghost use Rattle.smps_words.specs.Stages.{IsStageOf, stage_in};

use line_core::Names;
use wide_num::List;

/// The periods of a time file: their names, and the first column and the first
/// constraint row of each, counted from 0.
#[derive(Drop)]
pub struct Periods {
    pub names: Names,
    pub columns: List<u32>,
    pub rows: List<u32>,
    pub ghost facts: { PeriodFacts names columns rows },
}

// How many periods begin no later than this number.
fn stage_in(firsts: &[u32], number: u32) -> u8
    requires { length firsts.now ≤ max_periods }
    ensures { result ≡ stage_in firsts.now number }
{
    firsts.iter().filter(|first| **first <= number).count() as u8
}

impl Periods {
    /// The stage of a column, from 1: the last period whose first column isn't
    /// after it. It takes no memory.
    pub fn stage_of_column(&self, column: u32) -> u8
        ensures last { IsStageOf self.now.columns column result }
        ensures counted { result ≡ stage_in self.now.columns column }
    {
        stage_in(self.columns.as_slice(), column)
    }

    /// The stage of a constraint row, from 1: the last period whose first row
    /// isn't after it. It takes no memory.
    pub fn stage_of_row(&self, row: u32) -> u8
        ensures last { IsStageOf self.now.rows row result }
        ensures counted { result ≡ stage_in self.now.rows row }
    {
        stage_in(self.rows.as_slice(), row)
    }
}
