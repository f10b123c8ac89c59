/// How many rounds over the rows improve the prices at the first box of a pass,
/// and how many at a later one, where no simplex suggests them.
const FIRST_ROUNDS: u32 = 1000;

const LATER_ROUNDS: u32 = 2;

/// How many pivots of the simplex, at the first box of a pass and at a later one.
const FIRST_PIVOTS: u32 = 100_000;

const LATER_PIVOTS: u32 = 50;

/// How many boxes at most go by between two improvements.
const LONGEST_WAIT: u32 = 64;

/// When the prices are improved next, and by how much: at each box while
/// that narrows sides, and ever more seldom while it doesn't.
#[derive(Clone, Copy, Debug, Drop)]
pub struct Pace {
    pub rounds: u32,
    wait: u32,
    skip: u32,
}

impl Pace {
    /// The pace at the beginning of a pass.
    pub fn first() -> Pace {
        Pace {
            rounds: FIRST_ROUNDS,
            wait: 0,
            skip: 0,
        }
    }

    /// Whether the prices weren't improved yet in this pass.
    pub fn is_first(&self) -> bool {
        self.rounds == FIRST_ROUNDS
    }

    /// By how many pivots of the simplex the prices are improved at most.
    pub fn pivots(&self) -> u32 {
        if self.is_first() {
            FIRST_PIVOTS
        } else {
            LATER_PIVOTS
        }
    }

    /// Whether it is the prices' turn at this box.
    pub fn is_due(&mut self) -> bool {
        if self.skip == 0 {
            return true;
        }
        self.skip -= 1;
        false
    }

    /// Notes whether an improvement was of use.
    pub fn note(&mut self, useful: bool) {
        self.rounds = LATER_ROUNDS;
        self.wait = if useful {
            0
        } else if self.wait == 0 {
            1
        } else {
            self.wait.saturating_mul(2).min(LONGEST_WAIT)
        };
        self.skip = self.wait;
    }
}
