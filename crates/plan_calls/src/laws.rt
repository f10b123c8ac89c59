ghost use Rattle.std.specs.Prelude.{◌≡◌, None};
ghost use Rattle.run_calls.specs.MultiplierTests.{AreSized, too_big, unbalanced};
ghost use Rattle.sp_model.specs.Plans.{AreBalanced};
ghost use Rattle.sp_model.specs.declared.plan.Multipliers.{Multipliers};
ghost use Rattle.sp_model.specs.declared.run.Run.{Run};

/// `sized` and `balanced` of `run_calls` refuse no multipliers that are small enough, or
/// balanced: none of them is too big, and no node is out of balance.
pub fn multipliers_are_decided()
    ensures sized { (run : Run) (multipliers : Multipliers) → AreSized run multipliers →
        too_big run multipliers ≡ None }
    ensures balanced { (run : Run) (multipliers : Multipliers) → AreBalanced run multipliers →
        unbalanced run multipliers ≡ None }
{}
