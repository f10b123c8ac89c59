ghost use Rattle.std.specs.Prelude.{◌≡◌, ◌+◌, ◌*◌, ◌<◌, length, slice_set, IfOk};
ghost use Rattle.agreement.specs.Agreeing.{AreAgreed, AreWhole};
ghost use Rattle.candidates.specs.Choices.{AreFit, chosen_for};
ghost use Rattle.candidates.specs.Filling.{AreFilled, IsPut};
ghost use Rattle.candidates.specs.Values.{HasValues};
ghost use Rattle.log_words.specs.Candidates.{mean_of, picked};
ghost use Rattle.put_words.specs.NodeSums.{AreInside};
ghost use Rattle.run_calls.specs.MultiplierTests.{AreMembers, is_of_stage};
ghost use Rattle.sp_model.specs.Problems.{scenarios};

use crate::candidate::Candidate;
use crate::choosing::{Choice, chosen};
use crate::summing::place;
use run_calls::{Put, is_of_stage, members};
use sp_model::Run;
use std::alloc::{AllocError, Global};
use wide_num::List;

// Values of 0 for all scenarios and nonleaf columns.
fn zeros(alloc: Global, run: &Run) -> Result<List<i64>, AllocError>
    ensures { IfOk result (λ values. AreWhole run.now values) }
{
    let values = vec![in alloc; 0i64; run.program.scenarios.len() * run.nonleaf as usize]?;
    Ok(List::from_vec(values))
}

// Gives a scenario a value in a column.
fn put_in(run: &Run, scenario: u32, column: u32, value: i64, values: &mut List<i64>)
    requires whole { AreWhole run.now values.old }
    requires scenario { scenario < scenarios run.now }
    requires column { column < run.now.nonleaf }
    ensures { values.new ≡ slice_set values.old (scenario * run.now.nonleaf + column) value }
{
    values.set(place(run, scenario, column), value);
}

// Gives some scenarios a value in a column.
fn put(run: &Run, members: &[u32], column: u32, value: i64, values: &mut List<i64>)
    requires whole { AreWhole run.now values.old }
    requires members { AreMembers run.now members.now }
    requires column { column < run.now.nonleaf }
    ensures { IsPut run.now values.old members.now (length members.now) column value values.new }
{
    for scenario in members {
        put_in(run, *scenario, column, value, values);
    }
}

// Fills in a column of a node, where it is of the node's stage.
fn fill_column(
    run: &Run,
    x: &List<i64>,
    choice: Choice,
    node: u32,
    column: u32,
    values: &mut List<i64>,
)
    requires whole { AreWhole run.now x.now }
    requires fit { AreFit run.now x.now choice }
    requires node { node < length run.now.program.tree.nodes }
    requires column { column < run.now.nonleaf }
    requires filled { AreFilled run.now x.now choice node column values.old }
    ensures { AreFilled run.now x.now choice node (column + 1) values.new }
{
    if !is_of_stage(run, node, column) {
        return;
    }
    let value = chosen(run, x, choice, node, column);
    put(run, members(run, node), column, value, values);
}

// Fills in the columns of a node.
fn fill_node(run: &Run, x: &List<i64>, choice: Choice, node: u32, values: &mut List<i64>)
    requires whole { AreWhole run.now x.now }
    requires fit { AreFit run.now x.now choice }
    requires node { node < length run.now.program.tree.nodes }
    requires filled { AreFilled run.now x.now choice node 0 values.old }
    ensures { AreFilled run.now x.now choice (node + 1) 0 values.new }
{
    for column in 0..run.nonleaf {
        fill_column(run, x, choice, node, column, values);
    }
}

// The candidate that takes of each node what is chosen there.
fn made(alloc: Global, run: &Run, x: &List<i64>, choice: Choice) -> Result<Candidate, AllocError>
    requires whole { AreWhole run.now x.now }
    requires fit { AreFit run.now x.now choice }
    ensures values { IfOk result
        (λ made. HasValues run.now (chosen_for run.now x.now choice) made) }
    ensures agreed { IfOk result (λ made. AreAgreed run.now made.values) }
    ensures inside { AreInside run.now x.now → IfOk result (λ made. AreInside run.now made.values) }
{
    let mut values = zeros(alloc, run)?;
    for node in 0..run.program.tree.nodes.len() as u32 {
        fill_node(run, x, choice, node, &mut values);
    }
    Ok(Candidate { values })
}

/// Candidate `number` of a put, counted from 0: each node takes the values of its
/// scenario with that number, counted round. Its values lie in the boxes of their
/// columns where the put's do.
pub fn pick(alloc: Global, run: &Run, put: &Put, number: u32) -> Result<Candidate, AllocError>
    requires { AreWhole run.now put.now.x }
    ensures values { IfOk result
        (λ made. HasValues run.now (picked run.now put.now.x number) made) }
    ensures agreed { IfOk result (λ made. AreAgreed run.now made.values) }
    ensures inside { AreInside run.now put.now.x →
        IfOk result (λ made. AreInside run.now made.values) }
{
    made(alloc, run, &put.x, Choice::Number(number))
}

/// The mean of a put: each node takes the weighted mean of its scenarios, to the
/// nearest whole number, up from the middle between two, and cut to the column's
/// box.
pub fn mean(alloc: Global, run: &Run, put: &Put) -> Result<Candidate, AllocError>
    requires { AreInside run.now put.now.x }
    ensures values { IfOk result (λ made. HasValues run.now (mean_of run.now put.now.x) made) }
    ensures agreed { IfOk result (λ made. AreAgreed run.now made.values) }
    ensures inside { IfOk result (λ made. AreInside run.now made.values) }
{
    made(alloc, run, &put.x, Choice::Mean)
}
