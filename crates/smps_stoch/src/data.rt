ghost use Rattle.std.specs.Prelude.{◌≡◌, IfOk};
ghost use Rattle.std.specs.List.{All};
ghost use Rattle.smps_stoch.specs.SaidFacts.{IsProbable};
ghost use Rattle.stoch_lines.specs.Turns.{before_in};
ghost use Rattle.smps_stoch.specs.StochData.{stoch_of};

use crate::branches::branches_of;
use crate::drafts::drafts_of;
use crate::elements::elements_of;
use crate::stoch::Stoch;
use std::alloc::{AllocError, Global};
use stoch_lines::State;
use wide_num::List;

/// The data that the lines up to the end say.
pub fn stoch_of(alloc: Global, state: State) -> Result<Stoch, AllocError>
    requires chosen { All (λ chosen. IsProbable chosen.probability) state.realisations }
    requires heads { All (λ scenario. IsProbable scenario.probability) state.scenarios }
    ensures { IfOk result (λ stoch. stoch ≡ stoch_of (before_in state)) }
{
    let entries = state.entries.into_list();
    if state.scenarios.len() != 0 {
        let branches = branches_of(alloc, state.scenarios.as_slice(), entries.as_slice())?;
        return Ok(Stoch::Scenarios(List::from_vec(branches)));
    }
    let drafts = drafts_of(alloc, state.realisations.as_slice(), entries.as_slice())?;
    let elements = elements_of(alloc, state.periods.as_slice(), drafts)?;
    Ok(Stoch::Product(List::from_vec(elements)))
}
