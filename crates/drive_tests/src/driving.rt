ghost use Rattle.std.specs.Prelude.{◌<ℤ◌, ◌^◌, IfOk, IfSome, neg_ℤ, pos};
ghost use Rattle.sp_model.specs.RunFacts.{OptionFacts};

use crate::joined_runs::{joined, options};
use crate::rows::{ENOUGH, ROWS, SPENT_ROWS};
use io_edge::MemorySink;
use run_log::Log;
use run_text::body;
use sample_files::{SMALL_CORE, SMALL_STOCH, SMALL_TIME};
use schedule_core::drive;
use schedule_lines::read_schedule;
use sp_model::{Options, Run};
use std::alloc::{AllocError, Global};
use std::test::Fail;

// The run of SMALL.
fn small(alloc: Global, options: &Options) -> Result<Run, AllocError>
    requires { OptionFacts options.now }
{
    match joined(alloc, (SMALL_CORE, SMALL_TIME, SMALL_STOCH), options) {
        Some(run) => Ok(run),
        None => Err(AllocError),
    }
}

// The log of a run by a schedule.
fn log_of(alloc: Global, run: &Run, schedule: &str) -> Result<Log, AllocError>
    ensures lower { IfOk result (λ log. neg_ℤ (pos (2 ^ 127)) <ℤ log.lower) }
    ensures upper { IfOk result
        (λ log. IfSome log.upper (λ upper. neg_ℤ (pos (2 ^ 127)) <ℤ upper.value)) }
{
    if run.options.xhat != 0 {
        return Err(AllocError);
    }
    let (ranks, spokes) = (run.options.ranks, run.options.lagrangian);
    let Ok(schedule) = read_schedule(alloc, schedule.as_bytes(), ranks, spokes) else {
        return Err(AllocError);
    };
    match drive(alloc, run, &schedule) {
        Ok(log) => Ok(log),
        Err(_) => Err(AllocError),
    }
}

// The text of SMALL's run by a schedule.
fn text_of(alloc: Global, options: &Options, schedule: &str) -> Result<MemorySink, AllocError>
    requires { OptionFacts options.now }
{
    let mut out = MemorySink::new(alloc, vec![in alloc; 0u64]?);
    let run = small(alloc, options)?;
    let log = log_of(alloc, &run, schedule)?;
    match body(alloc, &run, &log, &mut out) {
        Ok(()) => Ok(out),
        Err(_) => Err(AllocError),
    }
}

#[test]
fn texts_by_schedules(rt: HostRuntime) -> Result<(), Fail> {
    let alloc = rt.alloc();
    for (ranks, spokes, iterations, schedule, text) in ROWS {
        let options = options(*ranks, *spokes, *iterations, ENOUGH);
        let out = text_of(alloc, &options, *schedule)?;
        assert_eq!(rt; out.bytes(), text.as_bytes());
    }
    for (budget, schedule, text) in SPENT_ROWS {
        let out = text_of(alloc, &options(1, 1, 1, *budget), *schedule)?;
        assert_eq!(rt; out.bytes(), text.as_bytes());
    }
    Ok(())
}

// What backs the last pair of a run that ends by agreement: the multipliers of put 1, whose
// reply is the greatest, and the points of the last put.
#[test]
fn bounds_are_backed(rt: HostRuntime) -> Result<(), Fail> {
    let alloc = rt.alloc();
    let run = small(alloc, &options(1, 1, 20, ENOUGH))?;
    let log = log_of(alloc, &run, "r1*8 s1*14 h*5 r1*8 s1*14 h*5 h s1")?;
    assert_eq!(rt; (log.first, log.lower), (80i128, 120i128));
    assert_eq!(rt; log.multipliers.values.as_slice(), &[-10i128, 10i128][..]);
    assert_eq!(rt; log.upper.is_some(), true);
    if let Some(upper) = &log.upper {
        assert_eq!(rt; upper.value, 120i128);
        assert_eq!(rt; upper.plan.points.len(), 2usize);
        for point in upper.plan.points.as_slice() {
            assert_eq!(rt; point.as_slice(), &[6i64, 0i64][..]);
        }
    }
    Ok(())
}
