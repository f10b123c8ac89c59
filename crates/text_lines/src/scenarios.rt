ghost use Rattle.std.specs.Prelude.{◌≡◌, ◌++◌, ◌<◌, ◌≤◌, OnOk, IfOk, length};
ghost use Rattle.sp_model.specs.Problems.{scenarios};
ghost use Rattle.tree_core.specs.Nodes.{node_place};
ghost use Rattle.text_lines.specs.Lines.{AreFull};
ghost use Rattle.text_lines.specs.ShowLines.{limits_line, node_text, nodes_text, scenario_line, scenario_lines_of};

use crate::limits::{limits_at, scenario_limits};
use crate::writing::{end_line, put_count, put_limit, put_name, put_number};
use boxed_problem::Limits;
use smps_words::Core;
use sp_model::{Run, weight};
use std::alloc::{AllocError, Global};
use wide_num::{List, Text};

// The number of the node in which a scenario stands at a stage.
fn node(run: &Run, s: u32, stage: u8) -> u32
    requires there { s < scenarios run.now }
    requires early { 1 ≤ stage }
    requires late { stage ≤ run.now.program.tree.stages }
    ensures { result ≡ node_place run.now.program.tree.nodes s stage }
{
    run.program.tree.node_of(s, stage)
}

// Puts the node of a scenario at a stage to a line.
#[tactic(auto, unfolding(crate::specs::ShowLines::node_text))]
fn put_node(line: &mut Vec<u8>, run: &Run, s: u32, stage: u8) -> Result<(), AllocError>
    requires there { s < scenarios run.now }
    requires early { 1 ≤ stage }
    requires late { stage ≤ run.now.program.tree.stages }
    ensures { OnOk result (line.new.items ≡ line.old.items ++ node_text run.now s stage) }
{
    put_count(line, b" ", u64::from(node(run, s, stage)) + 1)
}

// Puts the nodes of a scenario to a line, one for each stage.
fn put_nodes(line: &mut Vec<u8>, run: &Run, s: u32) -> Result<(), AllocError>
    requires { s < scenarios run.now }
    ensures { OnOk result (line.new.items ≡ line.old.items ++ nodes_text run.now s) }
{
    for t in 0..run.program.tree.stages {
        put_node(line, run, s, t + 1)?;
    }
    Ok(())
}

fn scenario_line(alloc: Global, run: &Run, s: u32) -> Result<Text, AllocError>
    requires { s < scenarios run.now }
    ensures { IfOk result (λ text. text ≡ scenario_line run.now s) }
{
    let mut line = Vec::new(alloc);
    put_count(&mut line, b"scenario ", u64::from(s) + 1)?;
    put_number(&mut line, b" weight ", weight(run, s))?;
    line.extend_from_slice(b" nodes")?;
    put_nodes(&mut line, run, s)?;
    end_line(line)
}

fn limits_line(
    alloc: Global,
    core: &Core,
    s: u32,
    i: u32,
    limits: &Limits,
) -> Result<Text, AllocError>
    ensures { IfOk result (λ text. text ≡ limits_line core.now s i limits.now) }
{
    let mut line = Vec::new(alloc);
    put_count(&mut line, b"limits ", u64::from(s) + 1)?;
    put_name(&mut line, b" ", &core.row_names, i)?;
    put_limit(&mut line, b" ", limits.lower)?;
    put_limit(&mut line, b" ", limits.upper)?;
    end_line(line)
}

/// The lines of a scenario, counted from 0: its weight and its nodes, and the
/// limits of each row in it.
pub fn scenario_lines(
    alloc: Global,
    core: &Core,
    run: &Run,
    s: u32,
) -> Result<List<Text>, AllocError>
    requires { s < scenarios run.now }
    ensures exact { IfOk result (λ lines. lines ≡ scenario_lines_of core.now run.now s) }
    ensures full { IfOk result (λ lines. AreFull lines) }
{
    let limits = scenario_limits(alloc, run, s)?;
    let mut lines = List::new(alloc);
    lines.push(scenario_line(alloc, run, s)?)?;
    for i in 0..run.program.rows.len() {
        lines.push(limits_line(alloc, core, s, i as u32, &limits_at(&limits, i))?)?;
    }
    Ok(lines)
}
