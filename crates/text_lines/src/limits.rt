ghost use Rattle.std.specs.Prelude.{◌≡◌, ◌<◌, map, slice_index_or, IfOk};
ghost use Rattle.boxed_problem.specs.BoxedFacts.{no_limits};
ghost use Rattle.sp_model.specs.Changes.{data_of, limits_of};
ghost use Rattle.sp_model.specs.Drafts.{with_limits};
ghost use Rattle.sp_model.specs.Problems.{data_at, scenarios};

use boxed_problem::Limits;
use sp_model::{Change, Program, Row, Run, Scenario};
use std::alloc::{AllocError, Global};

// The limits of the rows in the core.
fn core_limits(alloc: Global, rows: &[Row]) -> Result<Vec<Limits>, AllocError>
    ensures { IfOk result (λ limits. limits.items ≡ map limits_of rows.now) }
{
    let mut limits = Vec::new(alloc);
    for row in rows {
        limits.push(Limits {
            lower: row.lower,
            upper: row.upper,
        })?;
    }
    Ok(limits)
}

// Puts the limits of a change in their place.
fn change_limits(limits: &mut Vec<Limits>, change: &Change)
    ensures { limits.new.items ≡ with_limits limits.old.items change.now }
{
    if let Change::Limits { row, lower, upper } = change {
        if let Some(place) = limits.get_mut(*row as usize) {
            *place = Limits {
                lower: *lower,
                upper: *upper,
            };
        }
    }
}

// The limits of the rows in a scenario of a program.
fn changed_limits(
    alloc: Global,
    program: &Program,
    scenario: &Scenario,
) -> Result<Vec<Limits>, AllocError>
    ensures { IfOk result (λ limits. limits.items ≡ (data_of program.now scenario.now).limits) }
{
    let mut limits = core_limits(alloc, program.rows.as_slice())?;
    for change in scenario.changes.as_slice() {
        change_limits(&mut limits, change);
    }
    Ok(limits)
}

/// The limits of the rows in a scenario that is there.
pub fn scenario_limits(alloc: Global, run: &Run, s: u32) -> Result<Vec<Limits>, AllocError>
    requires { s < scenarios run.now }
    ensures { IfOk result (λ limits. limits.items ≡ (data_at run.now s).limits) }
{
    changed_limits(
        alloc,
        &run.program,
        &run.program.scenarios.as_slice()[s as usize],
    )
}

/// The limits of a row; none past the end.
pub fn limits_at(limits: &[Limits], i: usize) -> Limits
    ensures { result ≡ slice_index_or limits.now i no_limits }
{
    match limits.get(i) {
        Some(limits) => *limits,
        None => Limits {
            lower: None,
            upper: None,
        },
    }
}
