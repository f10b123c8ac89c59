use log_words::Answer;
use put_read::PutReader;
use sp_model::Multipliers;
use wide_num::Room;

/// Where a spoke stands in its cycle: what its next step does.
#[derive(Clone, Copy, Debug, Drop, PartialEq, Eq)]
pub enum Phase {
    /// It asks whether the hub has stopped.
    Asks,
    /// It makes the next step of its reading.
    Reads,
    /// It opens its reply.
    Opens,
    /// It puts the next word of its reply, of which so many are put, or closes
    /// it.
    Writes(usize),
    Ended,
}

/// The first best reply, if there is one, with its put and its multipliers.
#[derive(Drop)]
pub struct Best {
    pub found: bool,
    pub put: u64,
    pub value: i128,
    pub multipliers: Multipliers,
}

/// A Lagrangian spoke, by its number among all spokes.
#[derive(Drop)]
pub struct LagrangianSpoke {
    pub number: usize,
    pub phase: Phase,
    pub reader: PutReader,
    /// The reply, while it is written.
    pub value: i128,
    pub answers: Room<Answer>,
    pub best: Best,
}
