ghost use Rattle.propagate.specs.Spans.{IsSparse};

use boxed_problem::{Entry, Limits, Side};
use wide_num::List;

/// A problem's entries by column and by row. Those of a column stand together,
/// from its start to that of the next column. Those of a row are its first one,
/// and from each entry the next one of its row.
#[derive(Drop)]
pub struct Sparse {
    pub columns: List<Side>,
    pub rows: List<Limits>,
    pub entries: List<Entry>,
    pub starts: List<usize>,
    pub firsts: List<usize>,
    pub nexts: List<usize>,
    pub ghost facts: { IsSparse columns rows entries starts firsts nexts },
}
