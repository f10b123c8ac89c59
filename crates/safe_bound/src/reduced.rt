ghost use Rattle.safe_bound.specs.Reducing.{IsReducedData};

use boxed_problem::Side;
use wide_num::List;

/// A problem with prices taken into its objective: for each column of the box
/// its cost for one unit and for the square, all over the scale.
#[derive(Drop)]
pub struct Reduced {
    pub columns: List<Side>,
    pub scale: i128,
    pub constant: i128,
    pub line: List<i128>,
    pub square: List<i128>,
    pub ghost facts: { IsReducedData columns scale constant line square },
}
