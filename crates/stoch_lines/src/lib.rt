//! The lines of a stoch file: what they say, the fault of each by the lines
//! before it, and the state that they make one after another.
#![tactic(auto)]

mod blocks;
mod entries;
mod fields;
mod headers;
mod heading;
mod indep;
mod kinds;
mod pairs;
mod place_words;
mod places;
mod reading;
mod scenarios;
mod sources;
mod state;
mod steps;

pub use entries::{Entries, Owned};
pub use heading::Heading;
pub use kinds::{StochFault, StochKind};
pub use places::{Source, StochEntry, StochPlace};
pub use reading::{first_fault_is_first, read_state};
pub use sources::Sources;
pub use state::{Chosen, Saying, ScenarioHead, State};
