use hub_cylinder::Hub;
use lagrangian_spoke::LagrangianSpoke;
use plain_board::PlainBoard;
use put_codec::RunMeaning;
use put_read::SpokeReader;
use rank_writer::RankWriter;

/// All actors of a run, with the windows between them.
#[derive(Drop)]
pub struct Driver {
    pub of: RunMeaning,
    pub board: PlainBoard<RunMeaning>,
    pub hub: Hub,
    pub ranks: Vec<RankWriter>,
    pub spokes: Vec<LagrangianSpoke>,
    /// For each spoke the reader with which the hub polls it.
    pub polls: Vec<SpokeReader>,
    /// The spoke that the hub polls next.
    pub asks: usize,
    /// Whether the hub has stopped.
    pub is_stopped: bool,
}
