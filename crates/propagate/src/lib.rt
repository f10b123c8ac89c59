//! Sides of a problem narrowed by its rows: a problem's entries by row and by
//! column, a trail of sides that can be given back, and the tightening of sides
//! by the ranges of the rows' activities.
#![tactic(auto)]

mod changes;
mod clipping;
mod fault;
mod limits;
mod queue;
mod range;
mod ranging;
mod row_ranges;
mod rows;
mod settling;
mod spans;
mod sparse;
mod tightening;
mod trail;
mod undoing;

pub use changes::Change;
pub use clipping::{cut_above, cut_below};
pub use fault::{Empty, TrailFault};
pub use queue::Queue;
pub use range::Range;
pub use row_ranges::{is_missed, row_range};
pub use rows::tighten;
pub use settling::tighten_on;
pub use spans::sparse_of;
pub use sparse::Sparse;
pub use tightening::{is_row_missed, replace_side};
pub use trail::Trail;
pub use undoing::trail_of;
