ghost use Rattle.std.specs.Prelude.{◌≡◌};

use bound_ledger::Ledger;
use hedging::Hedge;
use log_words::SpokeLog;
use run_calls::Put;
use run_log::{End, Event};
use sp_model::{Multipliers, Run};
use std::snapshot::Snapshot;
use wide_num::{List, Room};

/// The hub of a run, with all the room that its log needs.
#[derive(Drop)]
pub struct Hub {
    pub run: Snapshot<Run>,
    /// How many puts the run makes at most.
    pub most: usize,
    /// The present put, its points, and the wait-and-see bound.
    pub hedge: Hedge,
    /// The pair of all takes so far.
    pub ledger: Ledger,
    pub events: Room<Event>,
    /// For each spoke and each put number from 0, whether that reply was taken.
    pub marks: List<bool>,
    /// Whether the present put stands in all windows.
    pub wrote: bool,
    /// Why the run has ended, where it has.
    pub end: Option<End>,
    pub logs: Room<SpokeLog>,
    /// Multipliers of 0.
    pub nothing: Multipliers,
}

impl Hub {
    /// The present put.
    pub fn put(&self) -> &Put
        ensures { result.now ≡ self.now.hedge.put }
    {
        &self.hedge.put
    }
}
