use schedule_lines::Schedule;
use smps_stoch::Stoch;
use smps_words::{Core, Periods};
use sp_model::Run;

/// What the three files of a command say.
#[derive(Drop)]
pub struct Triple {
    pub core: Core,
    pub periods: Periods,
    pub stoch: Stoch,
}

/// The data of a command's files, and the run that they make with its options.
#[derive(Drop)]
pub struct Instance {
    pub triple: Triple,
    pub run: Run,
    /// Whose turn it is, step by step; empty where the command has no schedule.
    pub schedule: Schedule,
}
