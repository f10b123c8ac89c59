ghost use Rattle.std.specs.Prelude.{◌≡◌, List, pos};
ghost use Rattle.boxed_problem.specs.Data.{Problem};
ghost use Rattle.branch_bound.specs.PlainSearch.{Progress, ref_count, search};
ghost use Rattle.boxed_problem.specs.declared.parts.Side.{Side};
ghost use Rattle.branch_bound.specs.PlainStep.{opened_then};
ghost use Rattle.branch_bound.specs.SmallExample.{small_of};

/// A law: the bound on the depth in the definition of the plain search is never
/// reached. For every problem, box and progress the search of the box is that of
/// the recursion without it, so `ref_count` counts the boxes of that recursion.
pub fn plain_search_is_unbounded()
    ensures { (b : Problem) → (box : List Side) → (p : Progress) →
        search b box p ≡ opened_then b box p }
{}

/// A law: on the two scenario problems of the worked example SMALL the plain
/// search opens 31 and 71 boxes.
pub fn plain_counts_of_small()
    ensures first { ref_count (small_of (pos 2)) ≡ 31 }
    ensures second { ref_count (small_of (pos 6)) ≡ 71 }
{}
