ghost use Rattle.std.specs.Prelude.{ℤ, List};
ghost use Rattle.bound_ledger.specs.Pairs.{IsPairOf, pair_after};
ghost use Rattle.bound_ledger.specs.declared.ledger.Bound.{Bound};

/// The law of the pair: its lower is the greatest of the first bound and the lower
/// bounds of the replies, and its upper the least of their upper bounds, or none where
/// there is none.
pub fn pair_law()
    ensures { (first : ℤ) (replies : List Bound)
        → IsPairOf first replies (pair_after first replies) }
{}
