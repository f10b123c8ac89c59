ghost use Rattle.smps_words.specs.CoreFacts.{CoreFacts};

use crate::core_data::{CoreColumn, CoreEntry, CoreRow};
use dec_core::Decimal;
use line_core::Names;
use wide_num::{List, Text};

/// The data of a core file. `rows` holds the constraint rows alone, and the
/// entries stand in ascending order of column and then of row. `constant` is
/// that of the cost, `right_name` is the name of the used set of right sides,
/// or `RHS` where it has none, and `objective` is the name of the first row of
/// kind N. The name of a row or column has its number.
#[derive(Drop)]
pub struct Core {
    pub rows: List<CoreRow>,
    pub columns: List<CoreColumn>,
    pub entries: List<CoreEntry>,
    pub constant: Decimal,
    pub right_name: Text,
    pub objective: Text,
    pub row_names: Names,
    pub column_names: Names,
    pub ghost facts: { CoreFacts rows columns entries constant row_names column_names },
}
