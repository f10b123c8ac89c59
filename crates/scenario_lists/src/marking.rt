ghost use Rattle.std.specs.Prelude.{◌≡◌, ◌≤◌, ◌<◌, IfOk, length, map};
ghost use Rattle.std.specs.List.{range_with_len};
ghost use Rattle.stoch_lines.specs.Faults.{max_scenarios};
ghost use Rattle.scenario_lists.specs.Combinations.{AreChoices, choice_until, combinations, mark_in};

use crate::choices::realisations_at;
use smps_stoch::Element;
use std::alloc::{AllocError, Global};
use wide_num::List;

// The choice of an element where its period isn't later than the stage, else 0.
fn choice_until(elements: &List<Element>, choices: &[usize], stage: u8, k: usize) -> usize
    requires choices { AreChoices elements.now choices.now }
    requires there { k < length elements.now }
    ensures { result ≡ choice_until elements.now choices.now stage k }
{
    if elements.as_slice()[k].period <= stage {
        choices[k]
    } else {
        0
    }
}

// The mark of some choices at a stage.
fn mark(elements: &List<Element>, choices: &[usize], stage: u8) -> u32
    requires choices { AreChoices elements.now choices.now }
    requires few { combinations elements.now ≤ max_scenarios }
    ensures { result ≡ mark_in elements.now choices.now stage }
{
    let mut mark = 0;
    for k in 0..elements.len() {
        mark = mark * realisations_at(elements, k).len()
            + choice_until(elements, choices, stage, k);
    }
    mark as u32
}

/// The marks of some choices at all stages.
pub fn marks(
    alloc: Global,
    stages: u8,
    elements: &List<Element>,
    choices: &[usize],
) -> Result<List<u32>, AllocError>
    requires choices { AreChoices elements.now choices.now }
    requires few { combinations elements.now ≤ max_scenarios }
    ensures { IfOk result
        (λ marks. marks ≡ map (mark_in elements.now choices.now) (range_with_len 1 stages)) }
{
    let mut marks = List::new(alloc);
    for before in 0..stages {
        marks.push(mark(elements, choices, before + 1))?;
    }
    Ok(marks)
}
