//! Tests of the search and its parts: points of a box, trails, bounds from prices,
//! prices that rise and the search itself, beside values worked out by hand, and the
//! least values that `scan` finds.
#![tactic(auto)]

#[cfg(test)]
mod bounds;
#[cfg(test)]
mod points;
#[cfg(test)]
mod problems;
#[cfg(test)]
mod reservoirs;
#[cfg(test)]
mod rises;
#[cfg(test)]
mod solving;
#[cfg(test)]
mod trails;
