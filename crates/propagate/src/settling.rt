ghost use Rattle.std.specs.Prelude.{◌≡◌, length};
ghost use Rattle.boxed_problem.specs.Data.{problem_of};
ghost use Rattle.propagate.specs.Emptiness.{OnEmpty};
ghost use Rattle.propagate.specs.SparseParts.{IsOf};
ghost use Rattle.propagate.specs.Tightening.{HoldsNone, HoldsSame, MissesRow, Tightens};
ghost use Rattle.propagate.specs.Trails.{KeepsAllMarks};

use crate::fault::TrailFault;
use crate::queue::{clear, next};
use crate::sparse::Sparse;
use crate::tightening::tighten_row;
use crate::trail::Trail;
use boxed_problem::Boxed;

/// How often each row may be visited on average. It stops slow creeping over
/// wide sides.
const VISITS_PER_ROW: usize = 4;

/// Takes one row that waits and narrows its columns. It answers true where no
/// row waits.
fn visit(trail: &mut Trail, sparse: &Sparse) -> Result<bool, TrailFault>
    requires { sparse.now ≡ trail.old.sparse.value }
    ensures tightens { Tightens sparse.now trail.old trail.new }
    ensures empty { OnEmpty result
        (λ row. MissesRow sparse.now.rows sparse.now.entries trail.new.sides row) }
{
    let Some(row) = next(&mut trail.queue) else {
        return Ok(true);
    };
    if row as usize >= sparse.rows.len() {
        return Ok(false);
    }
    match tighten_row(trail, sparse, row as usize) {
        Ok(true) => Ok(false),
        Ok(false) => Err(TrailFault::Empty { row }),
        Err(_) => Err(TrailFault::Memory),
    }
}

/// Visits rows until none waits, or as many as are allowed were visited.
fn visit_waiting(trail: &mut Trail, sparse: &Sparse) -> Result<(), TrailFault>
    requires { sparse.now ≡ trail.old.sparse.value }
    ensures tightens { Tightens sparse.now trail.old trail.new }
    ensures empty { OnEmpty result
        (λ row. MissesRow sparse.now.rows sparse.now.entries trail.new.sides row) }
{
    let visits = sparse.rows.len().saturating_mul(VISITS_PER_ROW);
    for _ in 0..visits {
        if visit(trail, sparse)? {
            break;
        }
    }
    Ok(())
}

/// Narrows the sides of a trail by the rows whose ranges have changed since
/// they were last looked at, and loses no point that meets the rows. Whatever
/// it answers, every mark stays. `Empty` comes only where that row's range over
/// the new sides misses its limits; the old sides then hold no point that meets
/// the rows.
pub fn tighten_on(trail: &mut Trail, problem: &Boxed, sparse: &Sparse) -> Result<(), TrailFault>
    requires problem { IsOf (problem_of problem.now) sparse.now }
    requires sparse { sparse.now ≡ trail.old.sparse.value }
    ensures holds { HoldsSame (problem_of problem.now) trail.old.sides trail.new.sides }
    ensures marks { KeepsAllMarks trail.old trail.new }
    ensures empty { OnEmpty result
        (λ row. MissesRow problem.now.rows problem.now.entries trail.new.sides row) }
    ensures none { OnEmpty result (λ row. HoldsNone (problem_of problem.now) trail.old.sides) }
{
    let _problem = problem;
    let result = visit_waiting(trail, sparse);
    clear(&mut trail.queue);
    result
}
