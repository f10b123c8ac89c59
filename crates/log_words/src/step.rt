/// What a step of a spoke tells.
#[derive(Clone, Copy, Debug, Drop, PartialEq, Eq)]
pub enum SpokeStep {
    /// The spoke went on, and none of the others holds.
    Moved,
    /// The hub hasn't stopped: the next step begins a reading.
    Asked,
    /// No put was read: the cycle begins again.
    Again,
    /// The reply to this put stands whole in the spoke's window.
    Replied { put: u64 },
    /// The hub has stopped, and the spoke has ended.
    Ended,
}
