//! The numbers of a run: the columns, rows, entries and scenarios of a core and
//! a stoch file, each number times the power of ten of its row or of the costs.
#![tactic(auto)]

mod changes;
mod column_list;
mod entry_list;
mod fault;
mod limits;
mod row_list;
mod scenarios;
mod sizes;

pub use column_list::columns;
pub use entry_list::entries;
pub use fault::MakeFault;
pub use row_list::rows;
pub use scenarios::run_scenarios;
pub use sizes::scaled_number;
