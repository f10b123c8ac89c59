//! Tests of the windows of a small worked run: the same steps at the seats of a board on
//! one thread and at those of a table, and readings in threads beside a writer.
#![tactic(auto)]

mod actors;
mod desks;
mod given;
#[cfg(test)]
mod lists;
mod making;
mod plain;
mod small;
mod solo;
mod table;
#[cfg(test)]
mod threads;

pub use actors::{Act, Actor, HubSeat, Told};
pub use desks::{Desk, answers, text_of};
pub use given::Given;
pub use plain::PlainDesk;
pub use small::small_run;
pub use solo::{ReadingSeat, WritingSeat};
pub use table::{Seated, TableDesk};
