ghost use Rattle.std.specs.Prelude.{◌≡◌, ℕ, List};
ghost use Rattle.smps_words.specs.Stages.{IsStageOf, stage_in};
ghost use Rattle.smps_words.specs.declared.periods.Periods.{Periods};

/// A law, not a call: at most one number is the stage.
pub fn stage_is_one()
    ensures { (firsts : List ℕ) (number stage other : ℕ) →
        IsStageOf firsts number stage → IsStageOf firsts number other → stage ≡ other }
{}

/// A law, not a call: the number `stage_in` is the stage of a column, and of a
/// constraint row.
pub fn stage_in_is_last()
    ensures columns { (periods : Periods) (column : ℕ) →
        IsStageOf periods.columns column (stage_in periods.columns column) }
    ensures rows { (periods : Periods) (row : ℕ) →
        IsStageOf periods.rows row (stage_in periods.rows row) }
{}
