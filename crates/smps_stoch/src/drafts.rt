ghost use Rattle.std.specs.Prelude.{◌≡◌, [], IfOk, OnOk};
ghost use Rattle.smps_stoch.specs.ElementSteps.{GrowsDrafts};
ghost use Rattle.smps_stoch.specs.StochData.{drafts_of};

use dec_core::Decimal;
use std::alloc::{AllocError, Global};
use stoch_lines::{Chosen, Owned, StochEntry};
use wide_num::List;

/// A realisation before it is weighed: the number of its element, its
/// probability, and its entries.
#[derive(Drop)]
pub struct Draft {
    pub element: usize,
    pub probability: Decimal,
    pub entries: List<StochEntry>,
}

// The realisations without their entries.
fn empty_drafts(alloc: Global, realisations: &[Chosen]) -> Result<Vec<Draft>, AllocError>
    ensures { IfOk result (λ drafts. drafts.items ≡ drafts_of realisations.now []) }
{
    let mut drafts = Vec::new(alloc);
    for chosen in realisations {
        drafts.push(Draft {
            element: chosen.element,
            probability: chosen.probability,
            entries: List::new(alloc),
        })?;
    }
    Ok(drafts)
}

// Appends an entry to those of its realisation.
fn add_entry(drafts: &mut Vec<Draft>, owned: &Owned) -> Result<(), AllocError>
    ensures { OnOk result (GrowsDrafts drafts.old.items owned.now drafts.new.items) }
{
    if owned.choice >= drafts.len() {
        return Ok(());
    }
    drafts[owned.choice].entries.push(owned.entry)
}

/// The realisations in order, each with its entries.
pub fn drafts_of(
    alloc: Global,
    realisations: &[Chosen],
    entries: &[Owned],
) -> Result<Vec<Draft>, AllocError>
    ensures { IfOk result (λ drafts. drafts.items ≡ drafts_of realisations.now entries.now) }
{
    let mut drafts = empty_drafts(alloc, realisations)?;
    for owned in entries {
        add_entry(&mut drafts, owned)?;
    }
    Ok(drafts)
}
