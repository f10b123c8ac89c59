use boxed_problem::Entry;
use tree_core::Tree;
use wide_num::List;

/// The options of a run; `limits` has their ranges.
#[derive(Clone, Copy, Debug, Drop)]
pub struct Options {
    /// The factor of all costs, from 1.
    pub scale: i128,
    /// The penalty of the hedging, from 1.
    pub rho: i128,
    /// How many further puts the hub makes at most after the first.
    pub iterations: u64,
    /// How many ranks there are, from 1 to the number of scenarios.
    pub ranks: usize,
    /// How many Lagrangian spokes there are.
    pub lagrangian: usize,
    /// How many xhat spokes there are.
    pub xhat: usize,
    /// How many candidates an xhat spoke prices for each put, from 1.
    pub candidates: u32,
    /// Whether the first xhat spoke prices the mean too.
    pub mean: bool,
    /// The gap at which the run ends, in the run's unit.
    pub gap: i128,
    /// How many boxes a solve opens at most, from 1.
    pub budget: u64,
    /// What a column's missing box ends are filled in by, from 1.
    pub missing: i64,
}

/// A column: its stage, counted from 1, its box and its scaled cost.
#[derive(Clone, Copy, Debug, Drop)]
pub struct Column {
    pub stage: u8,
    pub lower: i64,
    pub upper: i64,
    pub cost: i128,
}

/// A row: its stage, counted from 1, and its scaled limits.
#[derive(Clone, Copy, Debug, Drop)]
pub struct Row {
    pub stage: u8,
    pub lower: Option<i128>,
    pub upper: Option<i128>,
}

/// What a scenario has in place of the core's own data, scaled as these are.
#[derive(Clone, Copy, Debug, Drop)]
pub enum Change {
    /// Another cost of a column.
    Cost {
        column: u32,
        value: i128,
    },
    /// Another entry of a row and a column.
    Cell {
        row: u32,
        column: u32,
        value: i128,
    },
    /// Other limits of a row.
    Limits {
        row: u32,
        lower: Option<i128>,
        upper: Option<i128>,
    },
}

/// A scenario: its weight, at least 1, and its changes, no two of one place.
#[derive(Debug, Drop)]
pub struct Scenario {
    pub weight: i128,
    pub changes: List<Change>,
}

/// A multistage stochastic program in whole numbers. Columns, rows, scenarios
/// and nodes are numbered from 0, stages from 1.
#[derive(Debug, Drop)]
pub struct Program {
    /// In ascending order of their stages.
    pub columns: List<Column>,
    pub rows: List<Row>,
    /// In ascending order of column and then of row, each pair once.
    pub entries: List<Entry>,
    /// The constant of the objective, scaled as the costs are.
    pub constant: i128,
    /// The power of ten by which the costs were multiplied.
    pub cost_scale: i128,
    pub scenarios: List<Scenario>,
    pub tree: Tree,
}
