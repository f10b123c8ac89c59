//! The limits of a run.

/// How many stages a run has at least, and at most.
pub const MIN_STAGES: u8 = 2;

pub const MAX_STAGES: u8 = 8;

/// How many scenarios, columns and rows a run has at most.
pub const MAX_SCENARIOS: usize = 4096;

pub const MAX_COLUMNS: usize = 5000;

pub const MAX_ROWS: usize = 5000;

/// How many cells scenarios times columns, scenarios times rows, and the
/// changes of all scenarios have at most: 2^22 each.
pub const MAX_CELLS: usize = 4_194_304;

/// How many cells scenarios times nonleaf columns have at most: 2^20.
pub const MAX_NONLEAF_CELLS: usize = 1_048_576;

/// The greatest magnitude of a column's box ends: 10^9.
pub const MAX_BOX_END: i64 = 1_000_000_000;

/// The greatest values of the options: factor of the costs, penalty of the
/// hedging, iterations, ranks, spokes of both kinds together, candidates of a
/// spoke, gap (10^18), budget of a solve, and side that is filled in.
pub const MAX_SCALE: i128 = 1_000_000;

pub const MAX_RHO: i128 = 1_000_000_000;

pub const MAX_ITERATIONS: u64 = 100_000;

pub const MAX_RANKS: usize = 16;

pub const MAX_SPOKES: usize = 16;

pub const MAX_CANDIDATES: u32 = 16;

pub const MAX_GAP: i128 = 1_000_000_000_000_000_000;

pub const MAX_BUDGET: u64 = 1_000_000_000;

pub const MAX_MISSING: i64 = 1_000_000_000;

/// The greatest number of decimal places by which costs are scaled.
pub const MAX_PLACES: u32 = 9;
