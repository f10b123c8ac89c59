use smps_stoch::StochEntry;
use wide_num::List;

/// A scenario: its weight beside the others, where a weight above 2^127 counts
/// as 2^127, and its values in place of the core's, no two of one place.
#[derive(Drop)]
pub struct ScenarioData {
    pub weight: u128,
    pub entries: List<StochEntry>,
}
