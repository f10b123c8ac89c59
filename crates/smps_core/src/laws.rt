ghost use Rattle.std.specs.Prelude.{◌≡◌, ℕ, ◌<◌, List, [], length, slice_index_or};
ghost use Rattle.std.specs.Prelude.{Some, None, pos};
ghost use Rattle.std.specs.List.{Contains};
ghost use Rattle.smps_words.specs.TextLines.{TextLine};
ghost use Rattle.smps_words.specs.declared.core_data.CoreColumn.{CoreColumn};
ghost use Rattle.smps_words.specs.declared.core_data.CoreEntry.{CoreEntry};
ghost use Rattle.smps_words.specs.declared.core_file.Core.{Core};
ghost use Rattle.smps_words.specs.Outcomes.Outcome.{Ended};
ghost use Rattle.core_lines.specs.Lines.{before_of, cells_of, column_names_of, rows_of};
ghost use Rattle.core_lines.specs.Meaning.{outcome_of};
ghost use Rattle.core_lines.specs.declared.cells.Cell.{Cell};
ghost use Rattle.smps_core.specs.BoxLines.{HasEnds, MovesLower, MovesUpper, lower_in, upper_in};
ghost use Rattle.smps_core.specs.CoreData.{AreEntriesOf, IsCoreOf};
ghost use Rattle.smps_core.specs.Laws.{BothWays, IsSaid, IsSaidByAll, cell_at};
ghost use Rattle.smps_core.specs.NameOrder.{AreInOrder, column_given, row_given};

/// An entry or a cost is among what the lines say exactly where a pair of a
/// column's line of COLUMNS says it: its column is the one of the line's name
/// among the columns of the whole file, and its row the one of the pair's name
/// among the rows of the lines before, or, in an accepted file, among all its
/// rows. A pair of an ignored row says none.
pub fn cells_law()
    ensures each { (lines : List TextLine) (c : Cell) →
        BothWays (Contains (cells_of lines) c) (IsSaid lines c) }
    ensures accepted { (lines before : List TextLine) → outcome_of lines ≡ Ended before →
        (c : Cell) → BothWays (Contains (cells_of before) c) (IsSaidByAll before c) }
{}

/// An entry is there exactly where the lines say its pair, the objective's pairs
/// aside.
pub fn entries_law()
    ensures { (cells : List Cell) (entries : List CoreEntry) → AreEntriesOf cells entries →
        (e : CoreEntry) → BothWays (Contains entries e) (Contains cells (cell_at e)) }
{}

/// The box of a column is what its lines say one after another: without lines it
/// goes from 0 on without an end, and one more line, behind any lines, moves an end
/// exactly where it is a line of BOUNDS of the used set, names that column, and its
/// kind speaks of that end; then the end is the one that its kind and value say. The
/// columns of a core have the ends that the lines of its file come to.
pub fn box_lines_law()
    ensures start { (j : ℕ) → lower_in [] j ≡ Some (pos 0) }
    ensures endless { (j : ℕ) → upper_in [] j ≡ None }
    ensures lower { (lines : List TextLine) (line : TextLine) (j : ℕ) → MovesLower lines line j }
    ensures upper { (lines : List TextLine) (line : TextLine) (j : ℕ) → MovesUpper lines line j }
    ensures ends { (lines : List TextLine) (core : Core) → IsCoreOf (before_of lines) core →
        (j : ℕ) (d : CoreColumn) → j < length core.columns →
        HasEnds lines (slice_index_or core.columns j d) j }
{}

/// The names of the columns are distinct and stand in the order of the lines of
/// COLUMNS that are the first to give them, and each name that such a line gives is
/// there. So with the names of the constraint rows and the lines of ROWS up to the end
/// of a file without a fault.
pub fn names_law()
    ensures columns { (lines : List TextLine) →
        AreInOrder column_given lines (column_names_of lines) }
    ensures rows { (lines before : List TextLine) → outcome_of lines ≡ Ended before →
        AreInOrder row_given before (rows_of before).names }
{}
