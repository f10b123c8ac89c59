//! Tests of boards and their readers: puts and a reading beside each other, on one
//! thread and on several.
#![tactic(auto)]

mod bench;
mod crew;
mod followers;
mod pairs;
mod phases;
mod ranks;
mod stops;
#[cfg(test)]
mod table_tests;
#[cfg(test)]
mod tests;
#[cfg(test)]
mod thread_tests;
mod tiny;

pub use crew::Crew;
pub use followers::Follower;
pub use pairs::Pair;
pub use ranks::Rank;
pub use stops::stop_told;
pub use tiny::Tiny;
