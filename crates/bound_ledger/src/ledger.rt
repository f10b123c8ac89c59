ghost use Rattle.std.specs.Prelude.{◌≡◌, ℤ, List, ◌∷◌, [], ◌++◌, None};
ghost use Rattle.std.specs.Int.{int_max, int_min};
ghost use Rattle.bound_ledger.specs.Pairs.{least_of, pair_after, pair_with};

/// What one reply of a spoke says of the optimum: a lower bound, an upper bound, or
/// nothing.
#[derive(Clone, Copy, Debug, Drop, PartialEq, Eq)]
pub enum Bound {
    /// The optimum is at least this.
    Lower(i128),
    /// The optimum is at most this.
    Upper(i128),
    /// The reply bounds nothing.
    Nothing,
}

/// The greatest lower bound and the least upper bound so far, where there is an upper.
#[derive(Clone, Copy, Debug, Drop, PartialEq, Eq)]
pub struct Pair {
    /// The greatest lower bound.
    pub lower: i128,
    /// The least upper bound, or none where no reply had one.
    pub upper: Option<i128>,
}

/// The pair of the replies that were taken so far, behind a first lower bound.
#[derive(Clone, Debug, Drop)]
pub struct Ledger {
    /// The pair of all that was taken.
    pub pair: Pair,
}

impl Ledger {
    /// A ledger with this first lower bound and no upper one.
    pub fn new(first: i128) -> Ledger
        ensures { result.pair ≡ pair_after first [] }
    {
        Ledger {
            pair: Pair {
                lower: first,
                upper: None,
            },
        }
    }

    /// Takes one reply, and answers the pair that all replies so far have. It can't be
    /// refused.
    pub fn take(&mut self, reply: Bound) -> Pair
        ensures kept { (first : ℤ) (replies : List Bound)
            → self.old.pair ≡ pair_after first replies
            → self.new.pair ≡ pair_after first (replies ++ reply ∷ []) }
        ensures answer { result ≡ self.new.pair }
    {
        self.pair = with_reply(self.pair, reply);
        self.pair
    }
}

fn greater(one: i128, other: i128) -> i128
    ensures { result ≡ int_max one other }
{
    if one < other { other } else { one }
}

fn lesser(one: i128, other: i128) -> i128
    ensures { result ≡ int_min one other }
{
    if other < one { other } else { one }
}

fn least(upper: Option<i128>, value: i128) -> i128
    ensures { result ≡ least_of upper value }
{
    match upper {
        Some(present) => lesser(present, value),
        None => value,
    }
}

fn with_reply(pair: Pair, reply: Bound) -> Pair
    ensures { result ≡ pair_with pair reply }
{
    match reply {
        Bound::Lower(value) => Pair {
            lower: greater(pair.lower, value),
            upper: pair.upper,
        },
        Bound::Upper(value) => Pair {
            lower: pair.lower,
            upper: Some(least(pair.upper, value)),
        },
        Bound::Nothing => pair,
    }
}
