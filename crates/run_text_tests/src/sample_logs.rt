//! Logs of runs, as they are worked out by hand.

ghost use Rattle.std.specs.Prelude.{◌≤ℤ◌, pos, IfOk, IfSome};

use log_words::{Answer, SpokeKind, SpokeLog};
use run_log::{End, Event, Log, Source, Upper};
use sp_model::{Multipliers, Plan};
use std::alloc::{AllocError, Global};
use wide_num::List;

fn take(source: Source, put: u64, value: Option<i128>, lower: i128, upper: Option<i128>) -> Event {
    Event::Take {
        source,
        put,
        value,
        lower,
        upper,
    }
}

fn spoke(kind: SpokeKind, answers: Vec<Answer>) -> SpokeLog {
    SpokeLog {
        kind,
        answers: List::from_vec(answers),
    }
}

/// Two puts, each of whose replies is taken; the first bound of both is the greater.
pub fn two_puts(alloc: Global) -> Result<Log, AllocError>
    ensures lower { IfOk result (λ log. pos 0 ≤ℤ log.lower) }
    ensures upper { IfOk result (λ log. IfSome log.upper (λ upper. pos 0 ≤ℤ upper.value)) }
{
    let events = vec![in alloc;
        Event::Put { put: 1 },
        take(Source::Spoke(0), 1, Some(120), 120, None),
        Event::Put { put: 2 },
        take(Source::Spoke(0), 2, Some(100), 120, None),
    ]?;
    let answers = vec![in alloc;
        Answer::Reply {
            put: 1,
            value: Some(120),
        },
        Answer::Reply {
            put: 2,
            value: Some(100),
        },
    ]?;
    let mut spokes = List::new(alloc);
    spokes.push(spoke(SpokeKind::Lagrangian, answers))?;
    Ok(Log {
        first: 80,
        events: List::from_vec(events),
        end: End::Iterations,
        spokes,
        lower: 120,
        multipliers: Multipliers {
            values: List::new(alloc),
        },
        upper: None,
    })
}

/// A run whose points agree, with a spoke of each kind, a put that is skipped, and a
/// reply without a value.
pub fn agreed(alloc: Global, end: End) -> Result<Log, AllocError>
    ensures lower { IfOk result (λ log. pos 0 ≤ℤ log.lower) }
    ensures upper { IfOk result (λ log. IfSome log.upper (λ upper. pos 0 ≤ℤ upper.value)) }
{
    let events = vec![in alloc;
        Event::Put { put: 1 },
        take(Source::Spoke(1), 1, None, -7, None),
        take(Source::Hub, 1, Some(5), -7, Some(5)),
    ]?;
    let skips = vec![in alloc;
        Answer::Skip {
            put: 1,
            scenario: 1,
            opened: 9,
        },
    ]?;
    let nones = vec![in alloc;
        Answer::Reply {
            put: 1,
            value: None,
        },
    ]?;
    let mut spokes = List::new(alloc);
    spokes.push(spoke(SpokeKind::Lagrangian, skips))?;
    spokes.push(spoke(SpokeKind::Xhat, nones))?;
    Ok(Log {
        first: -7,
        events: List::from_vec(events),
        end,
        spokes,
        lower: 3,
        multipliers: Multipliers {
            values: List::new(alloc),
        },
        upper: Some(Upper {
            value: 5,
            plan: Plan {
                points: List::new(alloc),
            },
        }),
    })
}
