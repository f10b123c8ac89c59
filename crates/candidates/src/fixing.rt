ghost use Rattle.std.specs.Prelude.{◌≡◌, ◌<◌, IfErr, IfOk};
ghost use Rattle.boxed_problem.specs.Data.{problem_of};
ghost use Rattle.candidates.specs.Fixing.{FixFails, LieBelow};
ghost use Rattle.candidates.specs.Values.{IsWhole, given};
ghost use Rattle.log_words.specs.Candidates.{fixed_in};
ghost use Rattle.sp_model.specs.Problems.{scenarios};

use crate::candidate::Candidate;
use crate::fault::PriceFault;
use crate::summing::value;
use boxed_problem::Boxed;
use sp_model::Run;
use std::alloc::Global;

/// The problem of a scenario with its nonleaf columns fixed to a candidate. The
/// scenario has no point where a value lies outside the box of its column.
pub fn fixed(
    alloc: Global,
    run: &Run,
    candidate: &Candidate,
    scenario: u32,
) -> Result<Boxed, PriceFault>
    requires whole { IsWhole run.now candidate.now }
    requires scenario { scenario < scenarios run.now }
    ensures ok { IfOk result
        (λ problem. problem_of problem
        ≡ fixed_in run.now (given run.now candidate.now) scenario) }
    ensures lie { IfOk result
        (λ problem. LieBelow run.now (given run.now candidate.now) scenario run.now.nonleaf) }
    ensures err { IfErr result (FixFails run.now (given run.now candidate.now) scenario) }
{
    let Ok(mut problem) = run.scenario(alloc, scenario) else {
        return Err(PriceFault::Memory);
    };
    for column in 0..run.nonleaf {
        if !problem.fix(column, value(run, &candidate.values, scenario, column)) {
            return Err(PriceFault::NoPoint { scenario });
        }
    }
    Ok(problem)
}
