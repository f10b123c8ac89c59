ghost use Rattle.std.specs.Prelude.{◌≡◌, ◌≤◌, IfOk};
ghost use Rattle.join_words.specs.RunOf.{has_many_cells};
ghost use Rattle.smps_join.specs.Counting.{live_of};

use boxed_problem::Side;
use join_frame::is_idle;
use sp_model::{MAX_CELLS, MAX_NONLEAF_CELLS};
use std::alloc::{AllocError, Global};
use wide_num::List;

/// Whether so many scenarios have too many cells: scenarios times columns,
/// times rows, or times nonleaf columns.
pub fn has_many_cells(count: usize, columns: usize, rows: usize, nonleaf: usize) -> bool
    requires count { count ≤ 4096 }
    requires columns { columns ≤ 5000 }
    requires rows { rows ≤ 5000 }
    requires nonleaf { nonleaf ≤ 5000 }
    ensures { result ≡ has_many_cells count columns rows nonleaf }
{
    if count * columns > MAX_CELLS {
        return true;
    }
    if count * rows > MAX_CELLS {
        return true;
    }
    count * nonleaf > MAX_NONLEAF_CELLS
}

/// Of each column whether it stays in the run.
pub fn live_columns(alloc: Global, sides: &List<Side>) -> Result<Vec<bool>, AllocError>
    ensures { IfOk result (λ live. live.items ≡ live_of sides.now) }
{
    let mut live = Vec::new(alloc);
    for j in 0..sides.len() {
        live.push(!is_idle(sides, j))?;
    }
    Ok(live)
}
