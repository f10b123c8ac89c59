ghost use Rattle.std.specs.Prelude.{length};
ghost use Rattle.propagate.specs.Ranged.{IsTrail};

use crate::changes::Change;
use crate::queue::Queue;
use crate::range::Range;
use crate::sparse::Sparse;
use boxed_problem::Side;
use std::snapshot::Snapshot;
use wide_num::List;

/// Sides in a problem's box that can be narrowed and given back, with the range
/// of each row's activity over them. A mark is the number of changes that had
/// been made when it was set. The queue holds the rows whose ranges have changed
/// since they were last looked at.
#[derive(Drop)]
pub struct Trail {
    pub sides: List<Side>,
    pub changes: List<Change>,
    pub marks: List<usize>,
    pub ranges: List<Range>,
    pub queue: Queue,
    pub sparse: Snapshot<Sparse>,
    pub ghost facts: { IsTrail sparse.value.columns (length sparse.value.rows)
        sparse.value.entries sides changes marks ranges },
}
