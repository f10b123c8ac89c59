ghost use Rattle.std.specs.Prelude.{◌≡◌, ℕ, ℤ, List, Some, None};
ghost use Rattle.lagrangian_spoke.specs.Answering.{HaveNoValue, IsFirstGreatest, best_reply};
ghost use Rattle.lagrangian_spoke.specs.Spokes.{BacksBest, IsEnd, IsSpoke};
ghost use Rattle.lagrangian_spoke.specs.declared.spoke.LagrangianSpoke.{LagrangianSpoke};
ghost use Rattle.log_words.specs.declared.log.Answer.{Answer};
ghost use Rattle.log_words.specs.declared.log.SpokeEnd.{SpokeEnd};
ghost use Rattle.sp_model.specs.declared.run.Run.{Run};

/// The best of a spoke's replies is the first greatest one, and it is what the spoke
/// leaves, with its put's multipliers.
pub fn best_is_first_greatest()
    ensures some { (answers : List Answer) (k : ℕ) (value : ℤ) →
        best_reply answers ≡ Some (k, value) → IsFirstGreatest answers k value }
    ensures none { (answers : List Answer) → best_reply answers ≡ None → HaveNoValue answers }
    ensures left { (run : Run) (spoke : LagrangianSpoke) (left : SpokeEnd) → IsSpoke run spoke →
        IsEnd spoke left → BacksBest run left.log.answers left.best }
{}
