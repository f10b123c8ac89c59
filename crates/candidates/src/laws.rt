ghost use Rattle.std.specs.Prelude.{◌≡◌, ℕ, ◌<◌, ℤ, ◌≤ℤ◌, Some, None};
ghost use Rattle.agreement.specs.Agreeing.{AreAgreed};
ghost use Rattle.base_words.specs.Sums.{number_at};
ghost use Rattle.candidates.specs.Fixing.{LieBelow};
ghost use Rattle.candidates.specs.Under.{AreBestUnder, IsFirstWithout};
ghost use Rattle.candidates.specs.Values.{given};
ghost use Rattle.candidates.specs.declared.candidate.Candidate.{Candidate};
ghost use Rattle.log_words.specs.Candidates.{price_of};
ghost use Rattle.sp_model.specs.Plans.{IsOptimum, IsPlan, cost_of, point_of};
ghost use Rattle.sp_model.specs.Problems.{scenarios};
ghost use Rattle.sp_model.specs.declared.plan.Plan.{Plan};
ghost use Rattle.sp_model.specs.declared.run.Run.{Run};

/// The best points under values on which nodes agree are a plan; its cost is the
/// price of the values, no plan with these values costs less, and the optimum of
/// the extensive form is at most this cost.
pub fn candidates_cost_plans()
    ensures plan { (run : Run) (candidate : Candidate) (plan : Plan) →
        AreAgreed run candidate.values → AreBestUnder run (given run candidate) plan →
        IsPlan run plan }
    ensures price { (run : Run) (values : ℕ → ℕ → ℤ) (plan : Plan) →
        AreBestUnder run values plan → price_of run values ≡ Some (cost_of run plan) }
    ensures least { (run : Run) (values : ℕ → ℕ → ℤ) (plan other : Plan) →
        AreBestUnder run values plan → IsPlan run other →
        ((s j : ℕ) → s < scenarios run → j < run.nonleaf →
        number_at (point_of other s) j ≡ values s j) → cost_of run plan ≤ℤ cost_of run other }
    ensures optimum { (run : Run) (candidate : Candidate) (plan : Plan) (least : ℤ) →
        AreAgreed run candidate.values → AreBestUnder run (given run candidate) plan →
        IsOptimum run (Some least) → least ≤ℤ cost_of run plan }
{}

/// Values in the boxes of their columns have no price where a scenario has no
/// point under them.
pub fn no_point_no_price()
    ensures { (run : Run) (values : ℕ → ℕ → ℤ) (s : ℕ) →
        LieBelow run values s run.nonleaf → IsFirstWithout run values s →
        price_of run values ≡ None }
{}

/// The price looks at the values of scenarios and nonleaf columns that are there,
/// and at no other.
pub fn same_values_same_price()
    ensures { (run : Run) (values others : ℕ → ℕ → ℤ) →
        ((s j : ℕ) → s < scenarios run → j < run.nonleaf → values s j ≡ others s j) →
        price_of run values ≡ price_of run others }
{}
