//! The model of a run: a multistage stochastic program with its options, the
//! problems of its scenarios, its plans, and the laws that make a bound a bound.
#![tactic(auto)]

mod drafting;
mod laws;
mod limits;
mod making;
mod merging;
mod placing;
mod plan;
mod program;
mod run;
mod value_laws;

pub use drafting::{Draft, core_draft, drafted};
pub use laws::{wait_and_see_bounds, weak_duality};
pub use limits::{
    MAX_BOX_END, MAX_BUDGET, MAX_CANDIDATES, MAX_CELLS, MAX_COLUMNS, MAX_GAP, MAX_ITERATIONS,
    MAX_MISSING, MAX_NONLEAF_CELLS, MAX_PLACES, MAX_RANKS, MAX_RHO, MAX_ROWS, MAX_SCALE,
    MAX_SCENARIOS, MAX_SPOKES, MAX_STAGES, MIN_STAGES,
};
pub use making::{factor, weight};
pub use placing::is_before;
pub use plan::{Multipliers, Plan};
pub use program::{Change, Column, Options, Program, Row, Scenario};
pub use run::Run;
pub use value_laws::scenario_values;
