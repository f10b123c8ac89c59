//! The traits by which a program reads, writes and stores, and what stands
//! behind them: files and streams, and shelves and sinks in memory.
#![tactic(auto)]

mod call_names;
mod calls;
mod faults;
mod file_log;
mod file_shelf;
mod memory_shelf;
mod memory_sink;
mod out_sink;
mod shelves;
mod sinks;
mod streams;
mod sure_shelf;
mod sure_sink;
#[cfg(test)]
mod tests;

pub use faults::{EdgeFault, LoadFault};
pub use file_shelf::FileShelf;
pub use memory_shelf::MemoryShelf;
pub use memory_sink::MemorySink;
pub use out_sink::OutSink;
pub use shelves::Shelf;
pub use sinks::Sink;
pub use sure_shelf::SureShelf;
pub use sure_sink::SureSink;
