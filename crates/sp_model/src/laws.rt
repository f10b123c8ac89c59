ghost use Rattle.std.specs.Prelude.{◌≡◌, ℤ, ◌≤ℤ◌, Some, None};
ghost use Rattle.sp_model.specs.Plans.{AreBalanced, IsOptimum, IsPlan, cost_of, dual_of};
ghost use Rattle.sp_model.specs.Problems.{wait_and_see_of};
ghost use Rattle.sp_model.specs.declared.plan.Multipliers.{Multipliers};
ghost use Rattle.sp_model.specs.declared.plan.Plan.{Plan};
ghost use Rattle.sp_model.specs.declared.run.Run.{Run};

/// The wait-and-see bound is at most the cost of every plan, and so at most the
/// optimum of the extensive form; where there is none, there is no plan.
pub fn wait_and_see_bounds()
    ensures plans { (run : Run) (bound : ℤ) (plan : Plan) → wait_and_see_of run ≡ Some bound →
        IsPlan run plan → bound ≤ℤ cost_of run plan }
    ensures optimum { (run : Run) (bound cost : ℤ) → wait_and_see_of run ≡ Some bound →
        IsOptimum run (Some cost) → bound ≤ℤ cost }
    ensures none { (run : Run) → wait_and_see_of run ≡ None → IsOptimum run None }
{}

/// Weak duality: for balanced multipliers the dual value is at most the cost
/// of every plan, whatever the number of stages.
pub fn weak_duality()
    ensures plans { (run : Run) (multipliers : Multipliers) (bound : ℤ) (plan : Plan) →
        AreBalanced run multipliers → dual_of run multipliers ≡ Some bound → IsPlan run plan →
        bound ≤ℤ cost_of run plan }
    ensures optimum { (run : Run) (multipliers : Multipliers) (bound cost : ℤ) →
        AreBalanced run multipliers → dual_of run multipliers ≡ Some bound →
        IsOptimum run (Some cost) → bound ≤ℤ cost }
{}
