use sp_model::Options;

/// What a command does with its files.
#[derive(Clone, Copy, Debug, Drop, PartialEq, Eq)]
pub enum Action {
    /// Prints the wait-and-see bound.
    Wait,
    /// Prints columns, rows, scenarios and limits.
    Show,
    /// Hedges by a schedule and prints each bound.
    Drive,
}

/// What well-formed words ask for: what to do, the names of the files, and the
/// options.
#[derive(Clone, Copy, Debug, Drop)]
pub struct Command<'a> {
    pub action: Action,
    pub core: &'a str,
    pub time: &'a str,
    pub stoch: &'a str,
    /// The fourth file, where the action takes one.
    pub schedule: Option<&'a str>,
    pub options: Options,
}
