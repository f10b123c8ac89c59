/// Why a reading begins anew. The rank is the window's number among those that
/// are read together.
#[derive(Clone, Copy, PartialEq, Debug, Drop)]
pub enum Again {
    /// An entry is being written.
    Odd { rank: usize, stamp: u64 },
    /// The entry of the first window isn't newer than the last that was read.
    Old { stamp: u64, last: u64 },
    /// The stamp changed during the reading.
    Torn { rank: usize, first: u64, last: u64 },
    /// A later window has another entry than the first.
    Mixed { rank: usize, first: u64, other: u64 },
}

/// What a step of a reader tells.
#[derive(Clone, Copy, PartialEq, Debug, Drop)]
pub enum Read {
    Going,
    /// Entry `put` is read whole.
    Reading { put: u64 },
    Again(Again),
}
