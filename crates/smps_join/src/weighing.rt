ghost use Rattle.std.specs.Prelude.{◌≡◌, ◌<◌, ◌≤◌, ◌^◌, Some, None};
ghost use Rattle.std.specs.List.{sum_by};
ghost use Rattle.capped_num.specs.Capped.{capped};
ghost use Rattle.scenario_lists.specs.declared.data.ScenarioData.{ScenarioData};
ghost use Rattle.smps_join.specs.Weights.{IsTotal, weight_sum};

use capped_num::capped_sum;
use scenario_lists::ScenarioData;

// The sum of all weights, up to the cap.
fn weight_sum(listed: &[ScenarioData]) -> u128
    ensures { result ≡ capped (weight_sum listed.now) }
{
    let mut sum = 0;
    for scenario in listed {
        sum = capped_sum(sum, scenario.weight);
    }
    sum
}

/// The sum of all weights: none where it leaves 128 bits.
pub fn total(listed: &[ScenarioData]) -> Option<i128>
    ensures { IsTotal result (weight_sum listed.now) }
{
    let sum = weight_sum(listed);
    if sum > i128::MAX as u128 {
        return None;
    }
    Some(sum as i128)
}
