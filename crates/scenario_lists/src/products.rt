ghost use Rattle.std.specs.Prelude.{◌≡◌, ◌++◌, ◌+◌, ◌<◌, IfOk, OnOk, length};
ghost use Rattle.capped_num.specs.Capped.{capped};
ghost use Rattle.scenario_lists.specs.Combinations.{AreChoices, entries_at, entries_in};
ghost use Rattle.scenario_lists.specs.Live.{live_entries, live_scenario};
ghost use Rattle.scenario_lists.specs.ScenarioList.{scenario_in, weight_in};

use crate::choices::{chosen_at, realisations_at};
use crate::data::ScenarioData;
use crate::distinct::first_of_each;
use crate::live::append_live;
use capped_num::capped_product;
use smps_stoch::{Element, StochEntry};
use std::alloc::{AllocError, Global};
use wide_num::List;

// The product of the weights of what is chosen, up to the cap.
fn weight(elements: &List<Element>, choices: &[usize]) -> u128
    requires { AreChoices elements.now choices.now }
    ensures { result ≡ capped (weight_in elements.now choices.now) }
{
    let mut weight = 1;
    for k in 0..elements.len() {
        weight = capped_product(
            weight,
            chosen_at(elements, choices, k).weight.unsigned_abs(),
        );
    }
    weight
}

// Appends those entries of an element that stay: of what is chosen, and of the
// first realisation.
fn append(
    entries: &mut Vec<StochEntry>,
    elements: &List<Element>,
    live: &[bool],
    choices: &[usize],
    k: usize,
) -> Result<(), AllocError>
    requires choices { AreChoices elements.now choices.now }
    requires there { k < length elements.now }
    ensures { OnOk result
        (entries.new.items
        ≡ entries.old.items ++ live_entries live.now (entries_at elements.now choices.now k)) }
{
    append_live(
        entries,
        live,
        chosen_at(elements, choices, k).entries.as_slice(),
    )?;
    append_live(
        entries,
        live,
        realisations_at(elements, k)[0].entries.as_slice(),
    )?;
    Ok(())
}

// The entries of all elements that stay.
fn entries(
    alloc: Global,
    elements: &List<Element>,
    live: &[bool],
    choices: &[usize],
) -> Result<Vec<StochEntry>, AllocError>
    requires { AreChoices elements.now choices.now }
    ensures { IfOk result (λ entries.
        entries.items ≡ live_entries live.now (entries_in elements.now choices.now)) }
{
    let mut entries = Vec::new(alloc);
    for k in 0..elements.len() {
        append(&mut entries, elements, live, choices, k)?;
    }
    Ok(entries)
}

/// The scenario of some choices, without the entries of columns that don't stay.
pub fn scenario(
    alloc: Global,
    elements: &List<Element>,
    live: &[bool],
    choices: &[usize],
) -> Result<ScenarioData, AllocError>
    requires { AreChoices elements.now choices.now }
    ensures { IfOk result
        (λ made. made ≡ live_scenario live.now (scenario_in elements.now choices.now)) }
{
    let entries = entries(alloc, elements, live, choices)?;
    let kept = first_of_each(alloc, entries.as_slice())?;
    Ok(ScenarioData {
        weight: weight(elements, choices),
        entries: kept,
    })
}
