ghost use Rattle.std.specs.Prelude.{◌≡◌};
ghost use Rattle.run_log.specs.Events.{bound_from};
ghost use Rattle.run_log.specs.declared.log.Event.TheVariants.{Take};

use bound_ledger::{Bound, Pair};
use run_log::{Event, Source};

/// What a reply bounds: a spoke's the optimum from below, the hub's own from
/// above.
pub fn bound_from(source: Source, value: Option<i128>) -> Bound
    ensures { result ≡ bound_from source value }
{
    match value {
        None => Bound::Nothing,
        Some(value) => match source {
            Source::Hub => Bound::Upper(value),
            Source::Spoke(_) => Bound::Lower(value),
        },
    }
}

/// The take of a reply, with the pair behind it.
pub fn take_event(source: Source, put: u64, value: Option<i128>, pair: Pair) -> Event
    ensures { result ≡ Take source put value pair.lower pair.upper }
{
    Event::Take {
        source,
        put,
        value,
        lower: pair.lower,
        upper: pair.upper,
    }
}
