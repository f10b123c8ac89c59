use wide_num::List;

/// A window that a seat owns, and the entries that the seat closed there, in
/// the order of closing.
#[derive(Drop)]
pub struct Owned {
    pub window: usize,
    pub closed: List<u64>,
}

/// The entry that a seat has open in its window, and how many of its words are
/// put.
#[derive(Drop)]
pub struct Pending {
    pub entry: u64,
    pub put: usize,
}

/// A reading that a seat has begun: the stamp it began at, and the words read
/// so far.
#[derive(Drop)]
pub struct Reading {
    pub window: usize,
    pub first: u64,
    pub words: List<u64>,
}

/// What a seat knows of the windows. No board stores it: contracts compare it.
#[derive(Drop)]
pub struct View {
    /// Whether the seat is the hub's.
    pub hub: bool,
    /// How many windows are handed out, as the hub's seat knows.
    pub dealt: usize,
    pub owned: List<Owned>,
    pub pending: Option<Pending>,
    pub reading: Option<Reading>,
    /// For each window the entries that the seat accepted: of a leader's window
    /// the latest alone, of another each once.
    pub accepted: List<List<u64>>,
    /// The number with which the hub's seat stopped, and 0 before.
    pub stopped: u64,
}

/// A view beside what the windows mean; a seat that is spent names no meaning.
#[derive(Drop)]
pub struct Known<M> {
    pub of: Option<M>,
    pub view: View,
}

/// A call of a board, with its argument.
#[derive(Drop)]
pub enum Call {
    Open(u64),
    Put(u64),
    Close,
    Begin(usize),
    Read(usize),
    End(usize),
    Stop(u64),
    Stopped,
}
