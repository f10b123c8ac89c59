ghost use Rattle.std.specs.Prelude.{List};
ghost use Rattle.smps_words.specs.FirstPlaces.{Says};
ghost use Rattle.smps_words.specs.TextLines.{TextLine};
ghost use Rattle.core_lines.specs.Lines.{is_end_header};
ghost use Rattle.core_lines.specs.Meaning.{fault_behind, outcome_of};

/// Which line decides what a core file comes to: a faulty line has no line
/// before it that has a fault or ends the file, and so has the line that ends
/// the file without a fault; where there is neither, no line has a fault or
/// ends the file.
pub fn first_fault_law()
    ensures { (lines : List TextLine) → Says fault_behind is_end_header lines (outcome_of lines) }
{}
