ghost use Rattle.std.specs.Prelude.{◌≡◌, [], IfOk, OnOk, length};
ghost use Rattle.std.specs.List.{All};
ghost use Rattle.smps_stoch.specs.SaidFacts.{IsProbable};
ghost use Rattle.smps_stoch.specs.ElementSteps.{branches_with, GrowsBranches};
ghost use Rattle.smps_stoch.specs.StochData.{branches_of, scenario_places};

use crate::stoch::Branch;
use crate::weights::{scenario_places, weight_of};
use std::alloc::{AllocError, Global};
use stoch_lines::{Owned, ScenarioHead};
use wide_num::List;

// The scenarios without their entries, given the common number of places.
fn empty_branches(
    alloc: Global,
    places: u8,
    scenarios: &[ScenarioHead],
) -> Result<Vec<Branch>, AllocError>
    requires places { places ≡ scenario_places scenarios.now }
    requires probable { All (λ scenario. IsProbable scenario.probability) scenarios.now }
    ensures { IfOk result
        (λ branches. branches.items
        ≡ branches_with places scenarios.now [] (length scenarios.now)) }
{
    let mut branches = Vec::new(alloc);
    for scenario in scenarios {
        branches.push(Branch {
            parent: scenario.parent,
            weight: weight_of(scenario.probability, places),
            period: scenario.period,
            entries: List::new(alloc),
        })?;
    }
    Ok(branches)
}

// Appends an entry to those of its scenario.
fn add_entry(branches: &mut Vec<Branch>, owned: &Owned) -> Result<(), AllocError>
    ensures { OnOk result (GrowsBranches branches.old.items owned.now branches.new.items) }
{
    if owned.choice >= branches.len() {
        return Ok(());
    }
    branches[owned.choice].entries.push(owned.entry)
}

/// The scenarios in order, each with its weight and its entries.
pub fn branches_of(
    alloc: Global,
    scenarios: &[ScenarioHead],
    entries: &[Owned],
) -> Result<Vec<Branch>, AllocError>
    requires { All (λ scenario. IsProbable scenario.probability) scenarios.now }
    ensures { IfOk result (λ branches. branches.items ≡ branches_of scenarios.now entries.now) }
{
    let places = scenario_places(alloc, scenarios)?;
    let mut branches = empty_branches(alloc, places, scenarios)?;
    for owned in entries {
        add_entry(&mut branches, owned)?;
    }
    Ok(branches)
}
