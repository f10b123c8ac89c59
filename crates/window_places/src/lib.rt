//! Where the windows of a meaning lie among the words of a board.
#![tactic(auto)]

mod places;

pub use places::{Places, places_of, zeros};
