ghost use Rattle.std.specs.Prelude.{◌≡◌, ◌<◌, ◌≤◌, ◌^◌, ◌+ℤ◌, ◌-ℤ◌, ◌*ℤ◌, pos, length, map, unsigned_abs, IfOk};
ghost use Rattle.std.specs.List.{range_with_len};
ghost use Rattle.base_words.specs.Sums.{number_at};
ghost use Rattle.boxed_problem.specs.Data.{problem_of};
ghost use Rattle.hedging.specs.Tables.{ArePulls, IsReady};
ghost use Rattle.put_words.specs.Hedged.{hedged_in, hedged_line, hedged_square, pull};
ghost use Rattle.sp_model.specs.Plans.{multiplier_of};
ghost use Rattle.sp_model.specs.Problems.{problem_in, scenarios};

use crate::moving::{rate, twice};
use boxed_problem::Boxed;
use put_words::with_objective;
use run_calls::{Put, multiplier};
use sp_model::Run;
use std::alloc::{AllocError, Global};
use wide_num::{List, minus, plus};

// The pull of a scenario in a nonleaf column.
fn pull_at(run: &Run, put: &Put, pulls: &List<i128>, scenario: u32, column: u32) -> i128
    requires pulls { ArePulls run.now put.now.x pulls.now }
    requires scenario { scenario < scenarios run.now }
    requires column { column < run.now.nonleaf }
    ensures { result ≡ pull run.now put.now.x scenario column }
{
    let _put = put;
    pulls.as_slice()[scenario as usize * run.nonleaf as usize + column as usize]
}

// The linear part of a nonleaf column: twice its cost and its multiplier, less
// the pull.
fn early_cost(
    run: &Run,
    put: &Put,
    pulls: &List<i128>,
    scenario: u32,
    column: u32,
    cost: i128,
) -> i128
    requires ready { IsReady run.now put.now.multipliers put.now.x pulls.now }
    requires scenario { scenario < scenarios run.now }
    requires column { column < run.now.nonleaf }
    requires small { unsigned_abs cost ≤ 2 ^ 122 }
    ensures { result
        ≡
        (pos 2 *ℤ (cost +ℤ multiplier_of run.now put.now.multipliers scenario column)) -ℤ pull
        run.now put.now.x scenario column }
{
    let priced = plus(cost, multiplier(run, &put.multipliers, scenario, column));
    minus(twice(priced), pull_at(run, put, pulls, scenario, column))
}

// The linear part of a column.
fn hedged_cost(
    run: &Run,
    put: &Put,
    pulls: &List<i128>,
    scenario: u32,
    column: u32,
    cost: i128,
) -> i128
    requires ready { IsReady run.now put.now.multipliers put.now.x pulls.now }
    requires scenario { scenario < scenarios run.now }
    requires cost { cost ≡ number_at (problem_in run.now scenario).line column }
    requires small { unsigned_abs cost ≤ 2 ^ 122 }
    ensures { result ≡ hedged_line run.now put.now.multipliers put.now.x scenario column }
{
    if column < run.nonleaf {
        early_cost(run, put, pulls, scenario, column, cost)
    } else {
        twice(cost)
    }
}

// The linear parts of all columns.
fn hedged_costs(
    alloc: Global,
    run: &Run,
    put: &Put,
    pulls: &List<i128>,
    scenario: u32,
    costs: &[i128],
) -> Result<List<i128>, AllocError>
    requires ready { IsReady run.now put.now.multipliers put.now.x pulls.now }
    requires scenario { scenario < scenarios run.now }
    requires costs { costs.now ≡ (problem_in run.now scenario).line }
    ensures { IfOk result
        (λ line. line
        ≡ map (hedged_line run.now put.now.multipliers put.now.x scenario)
        (range_with_len 0 (length run.now.program.columns))) }
{
    let mut line = List::new(alloc);
    for column in 0..run.program.columns.len() as u32 {
        let cost = costs[column as usize];
        line.push(hedged_cost(run, put, pulls, scenario, column, cost))?;
    }
    Ok(line)
}

// The square part of a column: penalty times weight where it is a nonleaf one.
fn penalty(run: &Run, scenario: u32, column: u32) -> i128
    requires { scenario < scenarios run.now }
    ensures { result ≡ hedged_square run.now scenario column }
{
    if column < run.nonleaf {
        rate(run, scenario)
    } else {
        0
    }
}

// The square parts of all columns.
fn penalties(alloc: Global, run: &Run, scenario: u32) -> Result<List<i128>, AllocError>
    requires { scenario < scenarios run.now }
    ensures { IfOk result
        (λ square. square
        ≡ map (hedged_square run.now scenario)
        (range_with_len 0 (length run.now.program.columns))) }
{
    let mut square = List::new(alloc);
    for column in 0..run.program.columns.len() as u32 {
        square.push(penalty(run, scenario, column))?;
    }
    Ok(square)
}

/// The hedged problem of a scenario at the multipliers of a put and the values
/// that they were moved by.
pub fn hedged(
    alloc: Global,
    run: &Run,
    put: &Put,
    pulls: &List<i128>,
    scenario: u32,
) -> Result<Boxed, AllocError>
    requires ready { IsReady run.now put.now.multipliers put.now.x pulls.now }
    requires scenario { scenario < scenarios run.now }
    ensures { IfOk result
        (λ problem. problem_of problem ≡ hedged_in run.now put.now.multipliers put.now.x scenario) }
{
    let problem = run.scenario(alloc, scenario)?;
    let costs = problem.line.as_slice();
    let line = hedged_costs(alloc, run, put, pulls, scenario, costs)?;
    let square = penalties(alloc, run, scenario)?;
    Ok(with_objective(problem, 0, line, square))
}
