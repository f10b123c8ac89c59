use boxed_problem::Side;
use wide_num::List;

/// By what the numbers of a core and a stoch file become those of a run: the
/// boxes of the columns with missing ends filled in, and the decimal places by
/// which the costs, and the numbers of each row, are scaled.
#[derive(Debug, Drop)]
pub struct Frame {
    pub sides: List<Side>,
    pub cost_places: u8,
    pub row_places: List<u8>,
}
