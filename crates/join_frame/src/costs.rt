ghost use Rattle.std.specs.Prelude.{◌≡◌, ◌++◌, max, if◌then◌else◌, length};
ghost use Rattle.std.specs.List.{All};
ghost use Rattle.dec_core.specs.Scale.{common_places};
ghost use Rattle.stoch_lines.specs.declared.places.StochEntry.{StochEntry};
ghost use Rattle.join_frame.specs.Naming.{IsNamed};
ghost use Rattle.join_words.specs.Parts.{parts_of};
ghost use Rattle.join_words.specs.Powers.{core_costs, cost_places, is_live_cost};

use crate::boxes::is_idle;
use boxed_problem::Side;
use dec_core::Decimal;
use smps_stoch::{StochEntry, StochPlace};
use smps_words::Core;
use std::cmp;
use wide_num::List;

/// The greater one of some places and those of a number that counts.
pub fn raised(places: u8, counts: bool, number: Decimal) -> u8
    ensures { result ≡ (if counts then max places number.places else places) }
{
    if counts {
        cmp::max(places, number.places)
    } else {
        places
    }
}

// Whether a place is a cost that stays in the run.
fn is_live_cost(sides: &List<Side>, place: StochPlace) -> bool
    requires { IsNamed sides.now place }
    ensures { result ≡ is_live_cost sides.now place }
{
    match place {
        StochPlace::Cost(column) => !is_idle(sides, column as usize),
        _ => false,
    }
}

// The places of the core's costs.
fn core_places(core: &Core, sides: &List<Side>) -> u8
    requires { length sides.now ≡ length core.now.columns }
    ensures { result ≡ common_places (core_costs (parts_of core.now) sides.now) }
{
    let mut places = core.constant.places;
    for j in 0..core.columns.len() {
        places = raised(places, !is_idle(sides, j), core.columns.as_slice()[j].cost);
    }
    places
}

/// The decimal places by which the costs are scaled: the most that the constant,
/// a cost of the core or one of the stoch file has.
pub fn cost_places(core: &Core, sides: &List<Side>, entries: &[StochEntry]) -> u8
    requires long { length sides.now ≡ length core.now.columns }
    requires named { All (λ (e : StochEntry). IsNamed sides.now e.place) entries.now }
    ensures { result ≡ cost_places (parts_of core.now) sides.now entries.now }
{
    let mut places = core_places(core, sides);
    for entry in entries {
        places = raised(places, is_live_cost(sides, entry.place), entry.value);
    }
    places
}
