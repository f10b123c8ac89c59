ghost use Rattle.std.specs.Prelude.{◌≡◌, ◌<◌, ◌*ℤ◌, pos, map, FitsSigned, IfOk};
ghost use Rattle.std.specs.Int.{w128};
ghost use Rattle.std.specs.List.{All};
ghost use Rattle.boxed_problem.specs.Data.{problem_of};
ghost use Rattle.sp_model.specs.Changes.{side_of};
ghost use Rattle.sp_model.specs.Drafts.{data_in};
ghost use Rattle.sp_model.specs.Problems.{data_at, factor_of, problem_in, scenario_at, scenarios};

use crate::drafting::{Draft, drafted};
use crate::program::Column;
use crate::run::Run;
use boxed_problem::{Boxed, Side};
use std::alloc::{AllocError, Global};
use wide_num::{List, times};

// The boxes of the columns.
fn sides(alloc: Global, columns: &List<Column>) -> Result<List<Side>, AllocError>
    ensures { IfOk result (λ sides. sides ≡ map side_of columns.now) }
{
    let mut sides = List::new(alloc);
    for column in columns.as_slice() {
        sides.push(Side {
            lower: column.lower,
            upper: column.upper,
        })?;
    }
    Ok(sides)
}

// The costs, each times the factor.
fn line(alloc: Global, costs: &[i128], factor: i128) -> Result<List<i128>, AllocError>
    requires { All (λ cost. FitsSigned w128 (factor *ℤ cost)) costs.now }
    ensures { IfOk result (λ line. line ≡ map (λ cost. factor *ℤ cost) costs.now) }
{
    let mut line = List::new(alloc);
    for cost in costs {
        line.push(times(factor, *cost))?;
    }
    Ok(line)
}

// No column has a square.
fn square(alloc: Global, costs: &[i128]) -> Result<List<i128>, AllocError>
    ensures { IfOk result (λ square. square ≡ map (λ cost. pos 0) costs.now) }
{
    let mut square = List::new(alloc);
    for _cost in costs {
        square.push(0)?;
    }
    Ok(square)
}

/// The weight of a scenario.
pub fn weight(run: &Run, s: u32) -> i128
    requires { s < scenarios run.now }
    ensures { result ≡ (scenario_at run.now s).weight }
{
    run.program.scenarios.as_slice()[s as usize].weight
}

/// By what the costs of a scenario are multiplied: the scale times its weight.
pub fn factor(run: &Run, s: u32) -> i128
    requires { s < scenarios run.now }
    ensures { result ≡ factor_of run.now s }
{
    times(
        run.options.scale,
        run.program.scenarios.as_slice()[s as usize].weight,
    )
}

// The constant of a scenario's problem.
fn constant(run: &Run, s: u32) -> i128
    requires { s < scenarios run.now }
    ensures { result ≡ factor_of run.now s *ℤ run.now.program.constant }
{
    times(factor(run, s), run.program.constant)
}

// The data of a scenario of a run.
fn data(alloc: Global, run: &Run, s: u32) -> Result<Draft, AllocError>
    requires { s < scenarios run.now }
    ensures { IfOk result (λ draft. data_in draft ≡ data_at run.now s) }
{
    drafted(
        alloc,
        &run.program,
        &run.program.scenarios.as_slice()[s as usize],
    )
}

impl Run {
    /// The problem of a scenario, counted from 0: the boxes of the columns, the
    /// scenario's own limits and entries, and its costs times the scale and its
    /// weight.
    pub fn scenario(&self, alloc: Global, s: u32) -> Result<Boxed, AllocError>
        requires { s < scenarios self.now }
        ensures { IfOk result (λ problem. problem_of problem ≡ problem_in self.now s) }
    {
        let Draft {
            costs,
            limits,
            entries,
        } = data(alloc, self, s)?;
        let columns = sides(alloc, &self.program.columns)?;
        let line = line(alloc, costs.as_slice(), factor(self, s))?;
        let square = square(alloc, costs.as_slice())?;
        Ok(Boxed {
            columns,
            rows: List::from_vec(limits),
            entries: List::from_vec(entries),
            constant: constant(self, s),
            line,
            square,
        })
    }
}
