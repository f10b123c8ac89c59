ghost use Rattle.std.specs.Prelude.{◌≡◌, ◌++◌, ◌<◌, ◌≤◌, IfErr, IfOk, length};
ghost use Rattle.std.specs.List.{All};
ghost use Rattle.stoch_lines.specs.Faults.{max_scenarios};
ghost use Rattle.smps_stoch.specs.StochFacts.{IsEarlier};
ghost use Rattle.scenario_lists.specs.Live.{ByExcess, entry_count, live_beside, live_branches, live_entries};
ghost use Rattle.scenario_lists.specs.ScenarioList.{AreRows, HaveParents, branch_marks, inherited, inherited_mark, mark_beside, marks_beside};

use crate::data::ScenarioData;
use crate::distinct::first_of_each;
use crate::fault::ListFault;
use crate::live::append_live;
use capped_num::capped_product;
use smps_stoch::{Branch, StochEntry};
use std::alloc::{AllocError, Global};
use std::cmp;
use wide_num::List;

// What a scenario takes over: its parent's entries, none of the core.
fn inherited(made: &List<ScenarioData>, parent: Option<u32>) -> &[StochEntry]
    requires { IsEarlier parent (length made.now) }
    ensures { result.now ≡ inherited made.now parent }
{
    match parent {
        Some(parent) => made.as_slice()[parent as usize].entries.as_slice(),
        None => &[],
    }
}

// The entries of a scenario: those of its own that stay, then its parent's.
fn joined(
    alloc: Global,
    made: &List<ScenarioData>,
    live: &[bool],
    branch: &Branch,
) -> Result<Vec<StochEntry>, AllocError>
    requires { IsEarlier branch.now.parent (length made.now) }
    ensures { IfOk result (λ entries.
        entries.items
        ≡ live_entries live.now branch.now.entries ++ inherited made.now branch.now.parent) }
{
    let mut entries = Vec::new(alloc);
    append_live(&mut entries, live, branch.entries.as_slice())?;
    entries.extend_from_slice(inherited(made, branch.parent))?;
    Ok(entries)
}

// A scenario beside those made before it.
fn scenario_beside(
    alloc: Global,
    made: &List<ScenarioData>,
    live: &[bool],
    branch: &Branch,
) -> Result<ScenarioData, AllocError>
    requires { IsEarlier branch.now.parent (length made.now) }
    ensures { IfOk result (λ made_one. made_one ≡ live_beside live.now made.now branch.now) }
{
    let entries = joined(alloc, made, live, branch)?;
    let kept = first_of_each(alloc, entries.as_slice())?;
    Ok(ScenarioData {
        weight: capped_product(branch.weight.unsigned_abs(), 1),
        entries: kept,
    })
}

/// The scenarios of a stoch file that lists them, without the entries of columns
/// that don't stay, and with no more entries than `limit` all together.
pub fn branch_scenarios(
    alloc: Global,
    branches: &List<Branch>,
    live: &[bool],
    limit: usize,
) -> Result<List<ScenarioData>, ListFault>
    requires { HaveParents branches.now }
    ensures ok { IfOk result (λ made. made ≡ live_branches live.now branches.now) }
    ensures few { IfOk result (λ made. entry_count made ≤ limit) }
    ensures err { IfErr result
        (ByExcess (limit < entry_count (live_branches live.now branches.now))) }
    ensures asked { IfErr result (λ _. 0 < length branches.now) }
{
    let mut made = List::new(alloc);
    let mut left = limit;
    for k in 0..branches.len() {
        let next = scenario_beside(alloc, &made, live, &branches.as_slice()[k])?;
        let count = next.entries.len();
        if left < count {
            return Err(ListFault::TooManyEntries);
        }
        left -= count;
        made.push(next)?;
    }
    Ok(made)
}

// The mark that a scenario takes over at a stage: its parent's, and 0 for the
// core's.
fn inherited_mark(made: &List<List<u32>>, parent: Option<u32>, stage: u8) -> u32
    requires parent { IsEarlier parent (length made.now) }
    requires late { All (λ marks. stage ≤ length marks) made.now }
    requires counted { 1 ≤ stage }
    ensures { result ≡ inherited_mark made.now parent stage }
{
    match parent {
        Some(parent) => made.as_slice()[parent as usize].as_slice()[stage as usize - 1],
        None => 0,
    }
}

// The mark of a scenario at a stage: its own from its period on, which counts
// as the second at least.
fn mark_beside(made: &List<List<u32>>, branch: &Branch, stage: u8) -> u32
    requires parent { IsEarlier branch.now.parent (length made.now) }
    requires late { All (λ marks. stage ≤ length marks) made.now }
    requires counted { 1 ≤ stage }
    requires few { length made.now < max_scenarios }
    ensures { result ≡ mark_beside made.now branch.now stage }
{
    if cmp::max(2, branch.period) <= stage {
        made.len() as u32 + 1
    } else {
        inherited_mark(made, branch.parent, stage)
    }
}

// The marks of a scenario at all stages.
fn marks_beside(
    alloc: Global,
    stages: u8,
    made: &List<List<u32>>,
    branch: &Branch,
) -> Result<List<u32>, AllocError>
    requires parent { IsEarlier branch.now.parent (length made.now) }
    requires rows { AreRows stages made.now }
    requires few { length made.now < max_scenarios }
    ensures { IfOk result (λ marks. marks ≡ marks_beside stages made.now branch.now) }
{
    let mut marks = List::new(alloc);
    for before in 0..stages {
        marks.push(mark_beside(made, branch, before + 1))?;
    }
    Ok(marks)
}

/// The marks of the scenarios of a stoch file that lists them.
pub fn branch_marks(
    alloc: Global,
    stages: u8,
    branches: &List<Branch>,
) -> Result<List<List<u32>>, AllocError>
    requires parents { HaveParents branches.now }
    requires few { length branches.now ≤ max_scenarios }
    ensures marks { IfOk result (λ made. made ≡ branch_marks stages branches.now) }
    ensures rows { IfOk result (λ made. AreRows stages made) }
    ensures asked { IfErr result (λ _. 0 < length branches.now) }
{
    let mut made = List::new(alloc);
    for k in 0..branches.len() {
        let marks = marks_beside(alloc, stages, &made, &branches.as_slice()[k])?;
        made.push(marks)?;
    }
    Ok(made)
}
