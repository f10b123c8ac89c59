ghost use Rattle.std.specs.Prelude.{◌≡◌, ◌≤◌, IfOk, map};
ghost use Rattle.dec_core.specs.DecimalValue.{max_places};
ghost use Rattle.dec_core.specs.Scale.{scaled_to};
ghost use Rattle.smps_stoch.specs.SaidFacts.{IsProbable};
ghost use Rattle.smps_stoch.specs.StochData.{scenario_places};

use dec_core::{Decimal, common, scaled};
use std::alloc::{AllocError, Global};
use stoch_lines::ScenarioHead;
use wide_num::List;

/// A probability times a power of ten, which never leaves `i128`.
pub fn weight_of(probability: Decimal, places: u8) -> i128
    requires probable { IsProbable probability }
    requires enough { probability.places ≤ places }
    requires most { places ≤ max_places }
    ensures { result ≡ scaled_to probability places }
{
    scaled(probability, places).unwrap()
}

/// The greatest number of places of the scenarios' probabilities.
pub fn scenario_places(alloc: Global, scenarios: &[ScenarioHead]) -> Result<u8, AllocError>
    ensures { IfOk result (λ places. places ≡ scenario_places scenarios.now) }
{
    let mut probabilities = List::new(alloc);
    for scenario in scenarios {
        probabilities.push(scenario.probability)?;
    }
    Ok(common(&probabilities))
}
