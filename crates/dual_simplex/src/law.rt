ghost use Rattle.std.specs.Prelude.{◌≡◌, ℕ, ◌*◌, ◌^◌, ◌<◌, ◌≤◌, ◌≤ℤ◌, List, length, pos, unsigned_abs};
ghost use Rattle.boxed_problem.specs.BoxedFacts.{row_size, value_size};
ghost use Rattle.boxed_problem.specs.Data.{Problem};
ghost use Rattle.boxed_problem.specs.PriceFit.{FitsPrices};
ghost use Rattle.boxed_problem.specs.declared.parts.Prices.{Prices};
ghost use Rattle.dual_simplex.specs.Capped.{AreCapped, cap_at};

/// A law: prices that keep to caps fit a problem, where each cap times the
/// magnitude of its row is at most a row's share of 2^124, and the scale times
/// the magnitude of the objective is at most 2^124.
pub fn capped_prices_fit()
    ensures { (b : Problem) (prices : Prices) (caps : List ℕ) →
        length prices.values ≡ length b.rows → pos 1 ≤ℤ prices.scale →
        AreCapped b.rows caps prices.values →
        ((i : ℕ) → i < length b.rows →
        cap_at caps i * row_size b.columns b.rows b.entries i * length b.rows ≤ 2 ^ 124) →
        unsigned_abs prices.scale * value_size b.columns b.constant b.line b.square ≤ 2 ^ 124 →
        FitsPrices b prices }
{}
