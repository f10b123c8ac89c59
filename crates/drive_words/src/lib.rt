//! What log a schedule gives: where all actors of a run stand, and where each step of an
//! actor leads.
#![tactic(auto)]

mod laws;

pub use laws::{
    closed_log_is_driven, none_steps_at_rest, rounds_are_enough, same_words_same_log,
    steps_lead_to_rest,
};
