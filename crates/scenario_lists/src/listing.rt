ghost use Rattle.std.specs.Prelude.{◌≡◌, ◌<◌, ◌≤◌, IfErr, IfOk};
ghost use Rattle.stoch_lines.specs.Faults.{max_scenarios};
ghost use Rattle.scenario_lists.specs.Combinations.{combinations};
ghost use Rattle.scenario_lists.specs.Live.{ByExcess, entry_count, live_products, live_scenario, live_scenarios};
ghost use Rattle.scenario_lists.specs.ScenarioList.{AreRows, HaveAllParents, count_of, marks_of, product_marks, product_marks_at, product_scenario_at};

use crate::branches::{branch_marks, branch_scenarios};
use crate::choices::choices;
use crate::data::ScenarioData;
use crate::fault::ListFault;
use crate::marking::marks;
use crate::products::scenario;
use smps_stoch::{Element, Stoch};
use std::alloc::{AllocError, Global};
use wide_num::List;

// The scenario of a combination.
fn product_scenario(
    alloc: Global,
    elements: &List<Element>,
    live: &[bool],
    count: usize,
    number: usize,
) -> Result<ScenarioData, AllocError>
    requires all { count ≡ combinations elements.now }
    requires there { number < count }
    ensures { IfOk result
        (λ made. made ≡ live_scenario live.now (product_scenario_at elements.now number)) }
{
    let choices = choices(alloc, elements, count, number)?;
    scenario(alloc, elements, live, choices.as_slice())
}

// The scenarios of all combinations.
fn product_scenarios(
    alloc: Global,
    elements: &List<Element>,
    live: &[bool],
    count: usize,
    limit: usize,
) -> Result<List<ScenarioData>, ListFault>
    requires { count ≡ combinations elements.now }
    ensures ok { IfOk result (λ made. made ≡ live_products live.now elements.now) }
    ensures few { IfOk result (λ made. entry_count made ≤ limit) }
    ensures err { IfErr result
        (ByExcess (limit < entry_count (live_products live.now elements.now))) }
    ensures asked { IfErr result (λ _. 0 < count) }
{
    let mut made = List::new(alloc);
    let mut left = limit;
    for number in 0..count {
        let next = product_scenario(alloc, elements, live, count, number)?;
        let entries = next.entries.len();
        if left < entries {
            return Err(ListFault::TooManyEntries);
        }
        left -= entries;
        made.push(next)?;
    }
    Ok(made)
}

// The marks of a combination.
fn product_marks_at(
    alloc: Global,
    stages: u8,
    elements: &List<Element>,
    count: usize,
    number: usize,
) -> Result<List<u32>, AllocError>
    requires all { count ≡ combinations elements.now }
    requires few { count ≤ max_scenarios }
    requires there { number < count }
    ensures { IfOk result (λ marks. marks ≡ product_marks_at stages elements.now number) }
{
    let choices = choices(alloc, elements, count, number)?;
    marks(alloc, stages, elements, choices.as_slice())
}

// The marks of all combinations.
fn product_marks(
    alloc: Global,
    stages: u8,
    elements: &List<Element>,
    count: usize,
) -> Result<List<List<u32>>, AllocError>
    requires all { count ≡ combinations elements.now }
    requires few { count ≤ max_scenarios }
    ensures marks { IfOk result (λ made. made ≡ product_marks stages elements.now) }
    ensures rows { IfOk result (λ made. AreRows stages made) }
    ensures asked { IfErr result (λ _. 0 < count) }
{
    let mut made = List::new(alloc);
    for number in 0..count {
        let marks = product_marks_at(alloc, stages, elements, count, number)?;
        made.push(marks)?;
    }
    Ok(made)
}

/// The scenarios in order, of which there are `count`: all combinations with
/// the last element varying fastest, or the file's list, each with its parent's
/// entries for places that it has none of. Entries of columns that `live` says
/// don't stay are left out. `TooManyEntries` comes only where more than `limit`
/// entries stay in all scenarios together, and there they are never listed. Where
/// there are no scenarios, there is no error.
pub fn scenarios(
    alloc: Global,
    stoch: &Stoch,
    live: &[bool],
    count: usize,
    limit: usize,
) -> Result<List<ScenarioData>, ListFault>
    requires all { count ≡ count_of stoch.now }
    requires parents { HaveAllParents stoch.now }
    ensures ok { IfOk result (λ made. made ≡ live_scenarios live.now stoch.now) }
    ensures few { IfOk result (λ made. entry_count made ≤ limit) }
    ensures err { IfErr result
        (ByExcess (limit < entry_count (live_scenarios live.now stoch.now))) }
    ensures asked { IfErr result (λ _. 0 < count) }
{
    match stoch {
        Stoch::Product(elements) => product_scenarios(alloc, elements, live, count, limit),
        Stoch::Scenarios(branches) => branch_scenarios(alloc, branches, live, limit),
    }
}

/// The marks of the scenarios at each stage: two scenarios share a node of a
/// stage exactly where their marks are equal. There are as many marks of each
/// as there are stages. Memory isn't refused where there are no scenarios.
pub fn scenario_marks(
    alloc: Global,
    stages: u8,
    stoch: &Stoch,
    count: usize,
) -> Result<List<List<u32>>, AllocError>
    requires all { count ≡ count_of stoch.now }
    requires few { count ≤ max_scenarios }
    requires parents { HaveAllParents stoch.now }
    ensures marks { IfOk result (λ made. made ≡ marks_of stages stoch.now) }
    ensures rows { IfOk result (λ made. AreRows stages made) }
    ensures asked { IfErr result (λ _. 0 < count) }
{
    match stoch {
        Stoch::Product(elements) => product_marks(alloc, stages, elements, count),
        Stoch::Scenarios(branches) => branch_marks(alloc, stages, branches),
    }
}
