use log_words::SpokeLog;
use sp_model::{Multipliers, Plan};
use wide_num::List;

/// Whose reply is taken.
#[derive(Clone, Copy, Debug, Drop, PartialEq, Eq)]
pub enum Source {
    /// The hub itself, whose points are a plan.
    Hub,
    /// A spoke, by its number among all spokes.
    Spoke(usize),
}

/// What the hub does with its puts and the replies to them.
#[derive(Clone, Copy, Debug, Drop, PartialEq, Eq)]
pub enum Event {
    /// A put is made, counted from 1.
    Put {
        put: u64,
    },
    /// A reply is taken: whose, to which put, its value, and the pair of bounds
    /// that all takes up to it have reached, in the run's unit.
    Take {
        source: Source,
        put: u64,
        value: Option<i128>,
        lower: i128,
        upper: Option<i128>,
    },
}

/// Why a run makes no further put.
#[derive(Clone, Copy, Debug, Drop, PartialEq, Eq)]
pub enum End {
    /// The values of the last put are the same for scenarios that share a node.
    Agreed,
    /// The bounds are as close as the option `--gap` asks.
    Gap,
    /// As many puts were made as the options allow.
    Iterations,
    /// The search of this scenario for the next put was spent.
    Spent { scenario: u32 },
}

/// An upper bound: the cost of a plan, in the run's unit.
#[derive(Debug, Drop)]
pub struct Upper {
    pub value: i128,
    pub plan: Plan,
}

/// What a run did, and the bounds that it reached.
#[derive(Debug, Drop)]
pub struct Log {
    /// The wait-and-see bound.
    pub first: i128,
    pub events: List<Event>,
    pub end: End,
    /// What each spoke answered, in the order of their numbers.
    pub spokes: List<SpokeLog>,
    /// The last lower bound.
    pub lower: i128,
    /// Multipliers whose dual value it is.
    pub multipliers: Multipliers,
    /// The last upper bound, where there is one.
    pub upper: Option<Upper>,
}
