ghost use Rattle.boxed_problem.specs.BoxedFacts.{IsBoxed};

use crate::parts::{Entry, Limits, Side};
use wide_num::List;

/// A problem over the whole points of a box. The objective at a point `x` is
/// `constant` plus, for each column, `line * x + square * x * x`; the entries
/// stand in ascending order of column and then of row.
#[derive(Drop)]
pub struct Boxed {
    pub columns: List<Side>,
    pub rows: List<Limits>,
    pub entries: List<Entry>,
    pub constant: i128,
    pub line: List<i128>,
    pub square: List<i128>,
    pub ghost facts: { IsBoxed columns rows entries constant line square },
}
