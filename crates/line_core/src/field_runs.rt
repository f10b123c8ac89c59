ghost use Rattle.std.specs.Prelude.{ℕ, List};
ghost use Rattle.std.specs.List.{All, AllPairs, Contains};
ghost use Rattle.line_core.specs.Fields.{fields_at};
ghost use Rattle.line_core.specs.Runs.{HasEachField, IsBefore, IsFieldOf};
ghost use Rattle.line_core.specs.declared.field_list.Span.{Span};

/// The fields of a text are its longest runs of bytes that aren't blanks: each
/// field is such a run, each such run is a field, and each field ends before
/// the next begins.
pub fn fields_are_runs()
    ensures each { (start : ℕ) (text : List ℕ) → All (IsFieldOf start text) (fields_at start text) }
    ensures every { (start : ℕ) (text : List ℕ) → HasEachField start text (fields_at start text) }
    ensures rise { (start : ℕ) (text : List ℕ) → AllPairs IsBefore (fields_at start text) }
{}
