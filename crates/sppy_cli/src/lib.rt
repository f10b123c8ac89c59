//! The commands of `sppy` over any shelf and any sink: `desk` does what the
//! program's words ask for and answers a `Status`.
#![tactic(auto)]

mod code;
mod commands;
mod driving;
mod instance;
mod kinds;
mod line;
mod loads;
mod puts;
mod reading;
mod reporting;
mod showing;
mod status;
mod waiting;
mod writer;

pub use commands::desk;
pub use core_lines::CoreKind;
pub use instance::Instance;
pub use loads::MAX_FILE_BYTES;
pub use reporting::report;
pub use schedule_lines::ScheduleKind;
pub use smps_time::TimeKind;
pub use status::{InputFault, InputFile, InputKind, JoinKind, Status};
pub use stoch_lines::StochKind;
