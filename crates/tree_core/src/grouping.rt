ghost use Rattle.std.specs.Prelude.{◌≡◌, [], ◌∷◌, ◌++◌, ◌-◌, ◌<◌, ◌≤◌, ◌^◌, length, slice_index_or, slice_set, IfErr, IfOk, OnOk};
ghost use Rattle.std.specs.List.{All};
ghost use Rattle.tree_core.specs.Marks.{groups, mark_of};

use std::alloc::{AllocError, Global};
use std::collections::HashMap;
use wide_num::List;

// The list of one scenario.
fn single(alloc: Global, scenario: u32) -> Result<List<u32>, AllocError>
    ensures { IfOk result (λ list. list ≡ scenario ∷ []) }
{
    let mut list = List::new(alloc);
    list.push(scenario)?;
    Ok(list)
}

// Appends the scenario to the group at a place.
fn join(groups: &mut Vec<List<u32>>, place: usize, scenario: u32) -> Result<(), AllocError>
    requires { place < length groups.old.items }
    ensures { OnOk result
        (groups.new.items
        ≡ slice_set groups.old.items place
        (slice_index_or groups.old.items place [] ++ scenario ∷ [])) }
{
    groups[place].push(scenario)
}

// The mark of a scenario at a stage.
fn mark_of(owners: &List<List<u32>>, stage: u8, scenario: usize) -> u32
    requires there { scenario < length owners.now }
    requires marked { All (λ marks. stage ≤ length marks) owners.now }
    requires counted { 1 ≤ stage }
    ensures { result ≡ mark_of owners.now stage scenario }
{
    owners.as_slice()[scenario].as_slice()[stage as usize - 1]
}

// The scenarios by their marks at a stage: a list for each mark, by first scenario.
pub fn groups_at(
    alloc: Global,
    stage: u8,
    owners: &List<List<u32>>,
) -> Result<Vec<List<u32>>, AllocError>
    requires few { length owners.now < 2 ^ 32 }
    requires marked { All (λ marks. stage ≤ length marks) owners.now }
    requires counted { 1 ≤ stage }
    ensures groups { IfOk result
        (λ made. made.items ≡ groups (mark_of owners.now stage) (length owners.now)) }
    ensures asked { IfErr result (λ refused. 0 < length owners.now) }
{
    let mut places: HashMap<u32, usize> = HashMap::new(alloc);
    let mut groups: Vec<List<u32>> = Vec::new(alloc);
    for s in 0..owners.len() {
        let mark = mark_of(owners, stage, s);
        match places.get(&mark).copied() {
            Some(place) => join(&mut groups, place, s as u32)?,
            None => {
                places.insert(mark, groups.len())?;
                groups.push(single(alloc, s as u32)?)?;
            }
        }
    }
    Ok(groups)
}
