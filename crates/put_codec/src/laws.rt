ghost use Rattle.std.specs.Prelude.{◌≡◌, ◌+◌, ◌<◌, ◌≤◌, ℕ, ℤ, Option, Some, FitsSigned, IfSome};
ghost use Rattle.std.specs.Int.{w128};
ghost use Rattle.log_words.specs.Replies.{reply_of};
ghost use Rattle.put_codec.specs.Entries.{FitsLayout, IsSpelled, entry_of};
ghost use Rattle.put_codec.specs.Layouts.{layout_in};
ghost use Rattle.put_words.specs.Puts.{Made, put_of};
ghost use Rattle.sp_model.specs.Problems.{scenarios};
ghost use Rattle.sp_model.specs.ScenarioPoints.{HavePoints};
ghost use Rattle.sp_model.specs.declared.run.Run.{Run};
ghost use Rattle.word_codec.specs.Spelling.{reply_words};

/// Where each scenario has a feasible point, each put is there.
pub fn puts_are_there()
    ensures { (run : Run) (k : ℕ) → HavePoints run (scenarios run) → 1 ≤ k →
        (made : Made) × (put_of run k ≡ Some made) }
{}

/// Each put that a run makes has the lists of its layout, and can be spelled.
pub fn puts_are_spelled()
    ensures lists { (run : Run) (k : ℕ) (made : Made) → put_of run k ≡ Some made →
        FitsLayout (layout_in run) made.put }
    ensures spelled { (run : Run) (k : ℕ) (made : Made) → k ≤ run.options.iterations + 1 →
        put_of run k ≡ Some made → IsSpelled made.put }
{}

/// Where each scenario has a feasible point, each Lagrangian spoke has a reply to
/// each put. Entry `k` of a spoke's window is the words of its reply to put `k`,
/// and no other reply has these words.
pub fn replies_are_spelled()
    ensures there { (run : Run) (i k : ℕ) → HavePoints run (scenarios run) →
        i < run.options.lagrangian → 1 ≤ k → (value : ℤ) × (reply_of run i k ≡ Some value) }
    ensures entry { (run : Run) (i k : ℕ) →
        entry_of run (run.options.ranks + i) k ≡ reply_words (reply_of run i k) }
    ensures fits { (run : Run) (i k : ℕ) → k ≤ run.options.iterations + 1 →
        IfSome (reply_of run i k) (FitsSigned w128) }
    ensures decodes { (run : Run) (i k : ℕ) (given : Option ℤ) →
        k ≤ run.options.iterations + 1 → IfSome given (FitsSigned w128) →
        entry_of run (run.options.ranks + i) k ≡ reply_words given → given ≡ reply_of run i k }
{}
