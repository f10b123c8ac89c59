use sp_model::{Multipliers, Plan};
use wide_num::List;

/// What a spoke prices: the multipliers of a put, or candidates made of it.
#[derive(Clone, Copy, Debug, Drop, PartialEq, Eq)]
pub enum SpokeKind {
    Lagrangian,
    Xhat,
}

/// What a spoke answers to a put.
#[derive(Clone, Copy, Debug, Drop, PartialEq, Eq)]
pub enum Answer {
    /// A bound in the run's unit, or none where the spoke found none.
    Reply {
        put: u64,
        value: Option<i128>,
    },
    /// No reply: the search of a scenario was spent, with so many boxes opened.
    Skip {
        put: u64,
        scenario: u32,
        opened: u64,
    },
}

/// A spoke's kind and its answers, in the order in which it gave them.
#[derive(Debug, Drop)]
pub struct SpokeLog {
    pub kind: SpokeKind,
    pub answers: List<Answer>,
}

/// A bound with what it was made from, and the number of its put.
#[derive(Debug, Drop)]
pub enum Backing {
    /// A lower bound: the dual value of these multipliers.
    Lower {
        put: u64,
        value: i128,
        multipliers: Multipliers,
    },
    /// An upper bound: the cost of this plan.
    Upper {
        put: u64,
        value: i128,
        plan: Plan,
    },
}

/// What a spoke leaves when it has ended.
#[derive(Debug, Drop)]
pub struct SpokeEnd {
    pub log: SpokeLog,
    /// The first best of its replies; none where no reply has a value.
    pub best: Option<Backing>,
}
