ghost use Rattle.std.specs.Prelude.{◌≤ℤ◌, All, IfSome, Some, ℕ, ℤ};
ghost use Rattle.lagrangian_spoke.specs.Spokes.{BacksBest, HasFinished, IsEnd};
ghost use Rattle.lagrangian_spoke.specs.declared.spoke.LagrangianSpoke.{LagrangianSpoke};
ghost use Rattle.log_words.specs.declared.log.SpokeEnd.{SpokeEnd};
ghost use Rattle.run_log.specs.Enclosing.{IsLowerBound, IsPlanned, IsUpperBound, Proves, TellsBounds, pair_reached};
ghost use Rattle.run_log.specs.Runs.{IsRun, IsSpokeLog};
ghost use Rattle.run_log.specs.declared.log.Log.{Log};
ghost use Rattle.run_log.specs.declared.log.Upper.{Upper};
ghost use Rattle.sp_model.specs.Plans.{IsOptimum};
ghost use Rattle.sp_model.specs.declared.run.Run.{Run};

use put_codec::puts_are_there;
use put_words::puts_are_balanced;

/// A spoke that has finished on a put leaves a spoke's log of a run that ends behind
/// that put, and the first greatest of its replies as its best.
pub fn spokes_leave_logs()
    ensures log { (run : Run) (spoke ended : LagrangianSpoke) (put : ℕ) (left : SpokeEnd) →
        HasFinished run spoke ended put → IsEnd ended left →
        IsSpokeLog run put spoke.number left.log }
    ensures best { (run : Run) (spoke ended : LagrangianSpoke) (put : ℕ) (left : SpokeEnd) →
        HasFinished run spoke ended put → IsEnd ended left →
        BacksBest run left.log.answers left.best }
{}

/// A run's bounds enclose the least cost of a plan. Behind any number of events, and
/// as each take tells them, the lower one is at most the cost of every plan, and the
/// upper one, if any, is the cost of a plan. The last ones come with what proves them:
/// sized and balanced multipliers with the lower one as their dual value, and a plan
/// with the upper one as its cost.
pub fn runs_enclose()
    ensures lower { (run : Run) (log : Log) (n : ℕ) → IsRun run log →
        IsLowerBound run (pair_reached log n).lower }
    ensures upper { (run : Run) (log : Log) (n : ℕ) → IsRun run log →
        IfSome (pair_reached log n).upper (IsUpperBound run) }
    ensures told { (run : Run) (log : Log) → IsRun run log → All (TellsBounds run) log.events }
    ensures multipliers { (run : Run) (log : Log) → IsRun run log →
        Proves run log.multipliers log.lower }
    ensures plan { (run : Run) (log : Log) → IsRun run log → IfSome log.upper (IsPlanned run) }
    ensures last { (run : Run) (log : Log) → IsRun run log → IsLowerBound run log.lower }
    ensures optimum { (run : Run) (log : Log) (cost : ℤ) → IsRun run log →
        IsOptimum run (Some cost) → (log.lower ≤ℤ cost)
        × IfSome log.upper (λ (upper : Upper). cost ≤ℤ upper.value) }
{
    puts_are_there();
    puts_are_balanced();
}
