ghost use Rattle.std.specs.Prelude.{ℕ, ◌≤◌, ℤ, unsigned_abs};
ghost use Rattle.sp_model.specs.Reaching.{run_reach};
ghost use Rattle.sp_model.specs.declared.program.Options.{Options};
ghost use Rattle.sp_model.specs.declared.program.Program.{Program};
ghost use Rattle.reach_core.specs.Within.{HasReach, NumbersWithin};

/// A law, not a call: no number of a program is above the program's reach, nor
/// is the sum of its weights.
pub fn numbers_within_reach()
    ensures numbers { (program : Program) (options : Options) (total : ℤ) (nonleaf : ℕ) →
        HasReach program options total →
        NumbersWithin program (run_reach program options total nonleaf) }
    ensures total { (program : Program) (options : Options) (total : ℤ) (nonleaf : ℕ) →
        HasReach program options total →
        unsigned_abs total ≤ run_reach program options total nonleaf }
{}
