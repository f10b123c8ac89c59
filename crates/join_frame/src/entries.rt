ghost use Rattle.std.specs.Prelude.{◌≡◌, ◌++◌, IfOk, OnOk};
ghost use Rattle.std.specs.List.{flat_map};
ghost use Rattle.smps_stoch.specs.declared.stoch.Branch.{Branch};
ghost use Rattle.smps_stoch.specs.declared.stoch.Element.{Element};
ghost use Rattle.join_words.specs.Parts.{all_entries, branch_entries, element_entries, own_entries};

use smps_stoch::{Branch, Element, Realisation, Stoch, StochEntry};
use std::alloc::{AllocError, Global};
use wide_num::List;

// Appends the entries of an element's realisations.
fn append(entries: &mut Vec<StochEntry>, realisations: &List<Realisation>) -> Result<(), AllocError>
    ensures { OnOk result (entries.new.items ≡ entries.old.items ++ own_entries realisations.now) }
{
    for realisation in realisations.as_slice() {
        entries.extend_from_slice(realisation.entries.as_slice())?;
    }
    Ok(())
}

// The entries of all elements.
fn of_elements(alloc: Global, elements: &List<Element>) -> Result<Vec<StochEntry>, AllocError>
    ensures { IfOk result (λ entries. entries.items ≡ element_entries elements.now) }
{
    let mut entries = Vec::new(alloc);
    for element in elements.as_slice() {
        append(&mut entries, &element.realisations)?;
    }
    Ok(entries)
}

// The entries of all scenarios.
fn of_branches(alloc: Global, branches: &List<Branch>) -> Result<Vec<StochEntry>, AllocError>
    ensures { IfOk result (λ entries. entries.items ≡ branch_entries branches.now) }
{
    let mut entries = Vec::new(alloc);
    for branch in branches.as_slice() {
        entries.extend_from_slice(branch.entries.as_slice())?;
    }
    Ok(entries)
}

/// All entries of a stoch file, of all realisations or scenarios.
pub fn all_entries(alloc: Global, stoch: &Stoch) -> Result<Vec<StochEntry>, AllocError>
    ensures { IfOk result (λ entries. entries.items ≡ all_entries stoch.now) }
{
    match stoch {
        Stoch::Product(elements) => of_elements(alloc, elements),
        Stoch::Scenarios(branches) => of_branches(alloc, branches),
    }
}
