ghost use Rattle.std.specs.Prelude.{◌≡◌, [], IfOk, OnOk, length, replicate};
ghost use Rattle.std.specs.List.{All};
ghost use Rattle.smps_stoch.specs.SaidFacts.{IsProbable};
ghost use Rattle.smps_stoch.specs.StochData.{elements_of};
ghost use Rattle.smps_stoch.specs.ElementSteps.{elements_so_far, places_by, AreEnough, AreFew, GrowsElements, GrowsPlaces};

use crate::drafts::Draft;
use crate::stoch::{Element, Realisation};
use crate::weights::weight_of;
use std::alloc::{AllocError, Global};
use wide_num::List;

// Counts the places of a realisation for its element.
fn count_places(places: &mut Vec<u8>, draft: &Draft)
    ensures { GrowsPlaces places.old.items draft.now places.new.items }
{
    if draft.element >= places.len() {
        return;
    }
    let most = places[draft.element].max(draft.probability.places);
    places[draft.element] = most;
}

// A number of places for each element, 0 at first.
fn no_places(alloc: Global, count: usize) -> Result<Vec<u8>, AllocError>
    ensures { IfOk result (λ places. places.items ≡ replicate count 0) }
{
    Ok(vec![in alloc; 0u8; count]?)
}

// The greatest number of places of each element's probabilities.
fn places_by_element(alloc: Global, count: usize, drafts: &[Draft]) -> Result<Vec<u8>, AllocError>
    ensures { IfOk result (λ places. places.items ≡ places_by drafts.now count) }
{
    let mut places = no_places(alloc, count)?;
    for draft in drafts {
        count_places(&mut places, draft);
    }
    Ok(places)
}

// The elements without their realisations.
fn empty_elements(alloc: Global, places: &[u8], periods: &[u8]) -> Result<Vec<Element>, AllocError>
    ensures { IfOk result
        (λ elements. elements.items
        ≡ elements_so_far periods.now places.now [] (length periods.now)) }
{
    let mut elements = Vec::new(alloc);
    for period in periods {
        elements.push(Element {
            period: *period,
            realisations: List::new(alloc),
        })?;
    }
    Ok(elements)
}

// Appends a realisation to those of its element, given the places of each.
fn add_realisation(
    elements: &mut Vec<Element>,
    places: &[u8],
    draft: Draft,
) -> Result<(), AllocError>
    requires probable { IsProbable draft.probability }
    requires enough { AreEnough places.now draft }
    requires most { AreFew places.now draft }
    requires each { length elements.old.items ≡ length places.now }
    ensures { OnOk result (GrowsElements places.now elements.old.items draft elements.new.items) }
{
    let Draft {
        element,
        probability,
        entries,
    } = draft;
    if element >= places.len() {
        return Ok(());
    }
    let weight = weight_of(probability, places[element]);
    elements[element]
        .realisations
        .push(Realisation { weight, entries })
}

// The elements with their realisations, given the places of each.
fn filled_elements(
    alloc: Global,
    places: &[u8],
    periods: &[u8],
    drafts: Vec<Draft>,
) -> Result<Vec<Element>, AllocError>
    requires each { length places.now ≡ length periods.now }
    requires enough { All (AreEnough places.now) drafts.items }
    requires most { All (AreFew places.now) drafts.items }
    requires probable { All (λ draft. IsProbable draft.probability) drafts.items }
    ensures { IfOk result
        (λ elements. elements.items
        ≡ elements_so_far periods.now places.now drafts.items (length periods.now)) }
{
    let mut elements = empty_elements(alloc, places, periods)?;
    for draft in drafts {
        add_realisation(&mut elements, places, draft)?;
    }
    Ok(elements)
}

/// The elements in order, each with its period and its realisations.
pub fn elements_of(
    alloc: Global,
    periods: &[u8],
    drafts: Vec<Draft>,
) -> Result<Vec<Element>, AllocError>
    requires { All (λ draft. IsProbable draft.probability) drafts.items }
    ensures { IfOk result (λ elements. elements.items ≡ elements_of periods.now drafts.items) }
{
    let places = places_by_element(alloc, periods.len(), drafts.as_slice())?;
    filled_elements(alloc, places.as_slice(), periods, drafts)
}
