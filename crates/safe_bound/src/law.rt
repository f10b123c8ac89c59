ghost use Rattle.std.specs.Prelude.{◌≡◌, List, length, ℤ, ◌+ℤ◌, ◌-ℤ◌, ◌*ℤ◌, ◌≤ℤ◌};
ghost use Rattle.boxed_problem.specs.Data.{problem_of};
ghost use Rattle.boxed_problem.specs.Objective.{curve, value_of};
ghost use Rattle.boxed_problem.specs.Optimum.{Feasible};
ghost use Rattle.boxed_problem.specs.Points.{InBox};
ghost use Rattle.boxed_problem.specs.PriceFit.{FitsPrices};
ghost use Rattle.boxed_problem.specs.Sides.{Within};
ghost use Rattle.base_words.specs.Sums.{number_at, sum_below};
ghost use Rattle.boxed_problem.specs.declared.parts.Prices.{Prices};
ghost use Rattle.boxed_problem.specs.declared.parts.Side.{Side};
ghost use Rattle.boxed_problem.specs.declared.problem.Boxed.{Boxed};
ghost use Rattle.safe_bound.specs.PriceBound.{IsPriceBound, priced_activity, reduced_cost, scaled_square};

/// The bound of prices that fit is at most the objective at each feasible point
/// on the sides, and there is one such number. The reduced costs are those of
/// the scale times the objective less the sum of price times activity: at each
/// point both are the same number.
pub fn price_bound()
    ensures below { (b : Boxed) (prices : Prices) (sides : List Side) (v : ℤ) (x : List ℤ) →
        FitsPrices (problem_of b) prices → Within sides b.columns →
        IsPriceBound (problem_of b) prices sides v → Feasible (problem_of b) x → InBox sides x →
        v ≤ℤ value_of (problem_of b) x }
    ensures only { (b : Boxed) (prices : Prices) (sides : List Side) (v w : ℤ) →
        FitsPrices (problem_of b) prices → IsPriceBound (problem_of b) prices sides v →
        IsPriceBound (problem_of b) prices sides w → v ≡ w }
    ensures columns { (b : Boxed) (prices : Prices) (x : List ℤ) →
        ((prices.scale *ℤ value_of (problem_of b) x) -ℤ priced_activity (problem_of b) prices x)
        ≡
        ((prices.scale *ℤ b.constant) +ℤ sum_below (length b.columns)
        (λ j. curve (reduced_cost (problem_of b) prices j)
        (scaled_square (problem_of b) prices j) (number_at x j))) }
{}
