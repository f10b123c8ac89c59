ghost use Rattle.std.specs.Prelude.{◌≡◌, ℕ, ◌+◌, ◌<◌, ◌≤◌, [], IfOk, OnOk, OnErr, length, slice_set};
ghost use Rattle.boxed_problem.specs.Data.{problem_of};
ghost use Rattle.propagate.specs.Ranges.{high_activity, low_activity};
ghost use Rattle.boxed_problem.specs.Sides.{side_at};
ghost use Rattle.propagate.specs.Ranged.{AreRanges, IsInside};
ghost use Rattle.propagate.specs.Spans.{place_at};
ghost use Rattle.propagate.specs.SparseParts.{IsOf};
ghost use Rattle.propagate.specs.Trails.{IsAsBefore, KeepsAllMarks, KeepsMarks, sides_at, undone_to};

use crate::changes::Change;
use crate::queue::{Queue, add, full_queue};
use crate::range::Range;
use crate::ranging::shift;
use crate::row_ranges::row_range;
use crate::sparse::Sparse;
use crate::trail::Trail;
use boxed_problem::{Boxed, Side};
use std::alloc::{AllocError, Global};
use std::snapshot::Snapshot;
use wide_num::List;

/// The range of each row over the columns' boxes.
fn first_ranges(alloc: Global, sparse: &Sparse) -> Result<List<Range>, AllocError>
    ensures { IfOk result
        (λ ranges. AreRanges (length sparse.now.rows) sparse.now.entries sparse.now.columns
        ranges) }
{
    let columns = sparse.columns.as_slice();
    let entries = sparse.entries.as_slice();
    let mut ranges = List::new(alloc);
    for row in 0..sparse.rows.len() {
        ranges.push(row_range(columns, entries, row))?;
    }
    Ok(ranges)
}

/// A trail that begins with the problem's box and has no mark. All its rows
/// wait to be looked at.
pub fn trail_of(alloc: Global, problem: &Boxed, sparse: &Sparse) -> Result<Trail, AllocError>
    requires { IsOf (problem_of problem.now) sparse.now }
    ensures sides { IfOk result (λ trail. trail.sides ≡ problem.now.columns) }
    ensures marks { IfOk result (λ trail. trail.marks ≡ []) }
    ensures sparse { IfOk result (λ trail. trail.sparse.value ≡ sparse.now) }
{
    let sides = List::from_slice(alloc, problem.columns.as_slice())?;
    let ranges = first_ranges(alloc, sparse)?;
    let queue = full_queue(alloc, sparse.rows.len())?;
    Ok(Trail {
        sides,
        changes: List::new(alloc),
        marks: List::new(alloc),
        ranges,
        queue,
        sparse: Snapshot::of(sparse),
    })
}

/// Lets all rows of a column wait.
fn add_rows(sparse: &Sparse, queue: &mut Queue, column: usize) -> Result<(), AllocError>
    requires { column < length sparse.now.columns }
{
    let entries = sparse.entries.as_slice();
    let starts = sparse.starts.as_slice();
    for k in starts[column]..starts[column + 1] {
        if k < entries.len() {
            add(queue, entries[k].row)?;
        }
    }
    Ok(())
}

impl Trail {
    /// The present sides.
    pub fn sides(&self) -> &List<Side>
        ensures { result.now ≡ self.now.sides }
    {
        &self.sides
    }

    /// The least and the greatest activity of a row over the present sides.
    pub fn range(&self, row: u32) -> (i128, i128)
        requires { row < length self.now.sparse.value.rows }
        ensures low { result.0 ≡ low_activity self.now.sparse.value.entries self.now.sides row }
        ensures high { result.1 ≡ high_activity self.now.sparse.value.entries self.now.sides row }
    {
        let range = self.ranges.as_slice()[row as usize];
        (range.low, range.high)
    }

    /// Remembers the present sides, and answers the number of the mark under
    /// which they are remembered: the number of marks before it.
    pub fn mark(&mut self) -> Result<usize, AllocError>
        ensures number { IfOk result (λ mark. mark ≡ length self.old.marks) }
        ensures count { OnOk result (length self.new.marks ≡ length self.old.marks + 1) }
        ensures remembers { IfOk result (λ mark. sides_at self.new mark ≡ self.old.sides) }
        ensures sides { self.new.sides ≡ self.old.sides }
        ensures earlier { KeepsMarks (length self.old.marks) self.old self.new }
        ensures fails { OnErr result (IsAsBefore self.old self.new) }
    {
        let number = self.marks.len();
        self.marks.push(self.changes.len())?;
        Ok(number)
    }

    /// Sets the side of a column to one that lies in its present side, brings
    /// the ranges of the column's rows up to date, and lets these rows wait.
    pub fn narrow_at(
        &mut self,
        sparse: &Sparse,
        column: usize,
        side: Side,
    ) -> Result<(), AllocError>
        requires column { column < length self.old.sides }
        requires side { IsInside side (side_at self.old.sides column) }
        requires sparse { sparse.now ≡ self.old.sparse.value }
        ensures sides { OnOk result (self.new.sides ≡ slice_set self.old.sides column side) }
        ensures marks { KeepsAllMarks self.old self.new }
        ensures fails { OnErr result (IsAsBefore self.old self.new) }
    {
        let old = self.sides.as_slice()[column];
        add_rows(sparse, &mut self.queue, column)?;
        self.changes.push(Change { column, old })?;
        shift(
            sparse,
            self.sides.as_slice(),
            &mut self.ranges,
            column,
            side,
        );
        self.sides.set(column, side);
        Ok(())
    }

    /// Sets the side of a column, as `narrow_at` does, by the number that the
    /// entries have for it.
    pub fn narrow(&mut self, sparse: &Sparse, column: u32, side: Side) -> Result<(), AllocError>
        requires column { column < length self.old.sides }
        requires side { IsInside side (side_at self.old.sides column) }
        requires sparse { sparse.now ≡ self.old.sparse.value }
        ensures sides { OnOk result (self.new.sides ≡ slice_set self.old.sides column side) }
        ensures marks { KeepsAllMarks self.old self.new }
        ensures fails { OnErr result (IsAsBefore self.old self.new) }
    {
        self.narrow_at(sparse, column as usize, side)
    }

    /// Drops the marks from a number on.
    fn drop_marks(&mut self, count: usize)
        requires { count ≤ length self.old.marks }
        ensures count { length self.new.marks ≡ count }
        ensures earlier { (k : ℕ) → k < count →
            place_at self.new.marks k ≡ place_at self.old.marks k }
        ensures sides { self.new.sides ≡ self.old.sides }
        ensures changes { self.new.changes ≡ self.old.changes }
        ensures sparse { self.new.sparse.value ≡ self.old.sparse.value }
    {
        while self.marks.len() > count {
            let _ = self.marks.pop();
        }
    }

    /// Undoes all changes but the first so many.
    fn go_back(&mut self, sparse: &Sparse, count: usize)
        requires count { count ≤ length self.old.changes }
        requires marks { (k : ℕ) → k < length self.old.marks → place_at self.old.marks k ≤ count }
        requires sparse { sparse.now ≡ self.old.sparse.value }
        ensures sides { self.new.sides ≡ undone_to count self.old.changes self.old.sides }
        ensures marks { self.new.marks ≡ self.old.marks }
        ensures each { KeepsAllMarks self.old self.new }
    {
        while self.changes.len() > count {
            if let Some(change) = self.changes.pop() {
                shift(
                    sparse,
                    self.sides.as_slice(),
                    &mut self.ranges,
                    change.column,
                    change.old,
                );
                self.sides.set(change.column, change.old);
            }
        }
    }

    /// Gives back the sides that are remembered under a mark, and drops it and
    /// all later marks. It takes no memory.
    pub fn undo(&mut self, sparse: &Sparse, mark: usize)
        requires mark { mark < length self.old.marks }
        requires sparse { sparse.now ≡ self.old.sparse.value }
        ensures sides { self.new.sides ≡ sides_at self.old mark }
        ensures count { length self.new.marks ≡ mark }
        ensures earlier { KeepsMarks mark self.old self.new }
    {
        let count = self.marks.as_slice()[mark];
        self.drop_marks(mark);
        self.go_back(sparse, count);
    }
}
