//! The reader of stoch files: the elements with their realisations, or the
//! scenarios, that the file's lines say.
#![tactic(auto)]

mod branches;
mod data;
mod drafts;
mod elements;
mod laws;
mod reading;
mod stoch;
mod weights;

pub use laws::{
    entries_are_own, last_entries_tell_all, lines_are_by_element, values_are_own_or_first,
};
pub use reading::read_stoch;
pub use stoch::{Branch, Element, Realisation, Stoch};
pub use stoch_lines::{StochEntry, StochFault, StochKind, StochPlace, first_fault_is_first};
