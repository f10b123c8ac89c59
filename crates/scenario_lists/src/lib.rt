//! The scenarios of a stoch file: all combinations of its elements'
//! realisations, or the file's own list, each with its weight, its values in
//! place of the core's, and its marks, by which scenarios share nodes.
#![tactic(auto)]

mod branches;
mod choices;
mod counting;
mod data;
mod distinct;
mod fault;
mod laws;
mod listing;
mod live;
mod marking;
mod products;
mod value_laws;

pub use counting::{MAX_SCENARIOS, TooMany, scenario_count};
pub use data::ScenarioData;
pub use fault::ListFault;
pub use laws::{
    combinations_in_order, marks_are_own_or_parents, marks_branch, marks_of_agreeing, places_differ,
};
pub use listing::{scenario_marks, scenarios};
pub use value_laws::{values_are_chosen_or_first, values_are_own_or_parents, weights_multiply};

#[cfg(test)]
mod tests;
