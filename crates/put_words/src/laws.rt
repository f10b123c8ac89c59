ghost use Rattle.std.specs.Prelude.{◌≡◌, ◌+◌, ◌≤◌, ℕ, List, ℤ, pos, ◌<ℤ◌, Some, None};
ghost use Rattle.put_words.specs.NextMultipliers.{next_of, no_multipliers, rounded_down};
ghost use Rattle.put_words.specs.NodeSums.{AreInside};
ghost use Rattle.put_words.specs.Puts.{Made, put_of};
ghost use Rattle.sp_model.specs.ScenarioPoints.{HavePoints};
ghost use Rattle.run_calls.specs.MultiplierTests.{AreLong, AreSized};
ghost use Rattle.sp_model.specs.Plans.{AreBalanced, IsOptimum, dual_of};
ghost use Rattle.sp_model.specs.Problems.{scenarios, wait_and_see_of};
ghost use Rattle.sp_model.specs.declared.plan.Multipliers.{Multipliers};
ghost use Rattle.wide_num.specs.Quotients.{IsFloor};
ghost use Rattle.sp_model.specs.declared.run.Run.{Run};

/// What is called rounded down is the greatest whole number that isn't above the
/// quotient.
pub fn rounds_down()
    ensures { (a b : ℤ) → pos 0 <ℤ b → IsFloor a b (rounded_down a b) }
{}

/// Each put has its number, a multiplier and a value for each scenario and
/// nonleaf column, and its values lie in the boxes of their columns.
pub fn puts_are_made()
    ensures number { (run : Run) (k : ℕ) (made : Made) → put_of run k ≡ Some made →
        made.put.number ≡ k }
    ensures long { (run : Run) (k : ℕ) (made : Made) → put_of run k ≡ Some made →
        AreLong run made.put.multipliers }
    ensures inside { (run : Run) (k : ℕ) (made : Made) → put_of run k ≡ Some made →
        AreInside run made.put.x }
{}

/// The multipliers of each put are balanced, nodes of one scenario included;
/// balanced ones are so after any move.
pub fn puts_are_balanced()
    ensures step { (run : Run) (multipliers : Multipliers) (x : List ℤ) →
        AreBalanced run multipliers → AreBalanced run (next_of run multipliers x) }
    ensures puts { (run : Run) (k : ℕ) (made : Made) → put_of run k ≡ Some made →
        AreBalanced run made.put.multipliers }
{}

/// The multipliers of each put that a run makes are small enough.
pub fn puts_are_sized()
    ensures { (run : Run) (k : ℕ) (made : Made) → k ≤ run.options.iterations + 1 →
        put_of run k ≡ Some made → AreSized run made.put.multipliers }
{}

/// Multipliers of 0 give the wait-and-see bound.
pub fn zero_prices_nothing()
    ensures { (run : Run) → dual_of run (no_multipliers run) ≡ wait_and_see_of run }
{}

/// Where there is no dual value there is no plan.
pub fn no_dual_no_plan()
    ensures { (run : Run) (multipliers : Multipliers) → dual_of run multipliers ≡ None →
        IsOptimum run None }
{}

/// Where there is a put each scenario has a feasible point.
pub fn puts_need_points()
    ensures { (run : Run) (k : ℕ) (made : Made) → put_of run k ≡ Some made →
        HavePoints run (scenarios run) }
{}
