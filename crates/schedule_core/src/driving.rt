ghost use Rattle.std.specs.Prelude.{◌≡◌, ◌<ℤ◌, ◌^◌, All, IfErr, IfOk, IfSome, neg_ℤ, pos};
ghost use Rattle.std.specs.List.{AllZip};
ghost use Rattle.drive_words.specs.Driving.{IsDriven};
ghost use Rattle.drive_words.specs.Leading.{ClosesBehind};
ghost use Rattle.drive_words.specs.Resting.{IsAtRest};
ghost use Rattle.hedging.specs.Hedges.{FirstFails};
ghost use Rattle.hub_cylinder.specs.Hubs.{IsFresh, IsHub};
ghost use Rattle.lagrangian_spoke.specs.Spokes.{IsPutOf};
ghost use Rattle.run_log.specs.Runs.{IsRun};
ghost use Rattle.schedule_core.specs.Drivers.{AreActors, IsDriver, world_of};
ghost use Rattle.schedule_core.specs.Ends.{IsLeft, MayFinish};

use crate::driver::Driver;
use hedging::FirstFault;
use hub_cylinder::Hub;
use lagrangian_spoke::LagrangianSpoke;
use log_words::SpokeEnd;
use put_codec::puts_are_there;
use run_calls::Put;
use run_log::Log;
use schedule_lines::Schedule;
use sp_model::Run;
use std::alloc::{AllocError, Global};
use wide_num::List;

// What a spoke leaves, once it has answered the last put.
fn end_of(
    alloc: Global,
    run: &Run,
    spoke: LagrangianSpoke,
    put: &Put,
) -> Result<SpokeEnd, AllocError>
    requires may { MayFinish run.now put.now.number spoke }
    requires put { IsPutOf run.now put.now }
    ensures { IfOk result (IsLeft run.now put.now.number spoke) }
{
    let mut spoke = spoke;
    spoke.finish(alloc, run, put)?;
    Ok(spoke.into_end())
}

// What the spokes leave, once each has answered the last put.
fn ends_of(
    alloc: Global,
    run: &Run,
    spokes: Vec<LagrangianSpoke>,
    put: &Put,
) -> Result<List<SpokeEnd>, AllocError>
    requires may { All (MayFinish run.now put.now.number) spokes.items }
    requires put { IsPutOf run.now put.now }
    ensures { IfOk result (AllZip (IsLeft run.now put.now.number) spokes.items) }
{
    let count = spokes.len();
    let mut rest = spokes;
    let mut ends = List::new(alloc);
    for turn in 0..count {
        let _turn = turn;
        let spoke = rest.remove(0);
        let end = end_of(alloc, run, spoke, put)?;
        ends.push(end)?;
    }
    Ok(ends)
}

// The log of a run in which nobody has a step.
fn close(alloc: Global, run: &Run, driver: Driver) -> Result<Log, AllocError>
    requires driver { IsDriver run.now driver }
    requires rest { IsAtRest (world_of driver) }
    ensures run { IfOk result (IsRun run.now) }
    ensures first { IfOk result (λ log. log.first ≡ driver.hub.hedge.bound) }
    ensures closes { IfOk result (ClosesBehind run.now (world_of driver)) }
{
    let Driver { hub, spokes, .. } = driver;
    let ends = ends_of(alloc, run, spokes, hub.put())?;
    Ok(hub.end(run, ends))
}

// The log that a schedule gives, behind the making of put 1.
fn driven(alloc: Global, run: &Run, hub: Hub, schedule: &Schedule) -> Result<Log, AllocError>
    requires actors { AreActors run.now schedule.now.turns }
    requires hub { IsHub run.now hub }
    requires fresh { IsFresh hub }
    ensures run { IfOk result (IsRun run.now) }
    ensures driven { IfOk result (IsDriven run.now schedule.now.turns) }
{
    let mut driver = Driver::new(alloc, run, hub)?;
    driver.take_turns(alloc, run, schedule.turns.as_slice())?;
    driver.rest(alloc, run)?;
    let log = close(alloc, run, driver)?;
    Ok(log)
}

/// The log of a run whose actors make their steps as a schedule says, and then in rounds: the
/// hub, the ranks in order and the spokes in order. Its ranks and spokes are the run's. It
/// waits for nobody. Both last bounds are above the least number of 128 bits.
pub fn drive(alloc: Global, run: &Run, schedule: &Schedule) -> Result<Log, FirstFault>
    requires alone { run.now.options.xhat ≡ 0 }
    requires actors { AreActors run.now schedule.now.turns }
    ensures run { IfOk result (IsRun run.now) }
    ensures driven { IfOk result (IsDriven run.now schedule.now.turns) }
    ensures lower { IfOk result (λ log. neg_ℤ (pos (2 ^ 127)) <ℤ log.lower) }
    ensures upper { IfOk result
        (λ log. IfSome log.upper (λ upper. neg_ℤ (pos (2 ^ 127)) <ℤ upper.value)) }
    ensures err { IfErr result (FirstFails run.now) }
{
    let hub = match Hub::first(alloc, run) {
        Ok(hub) => hub,
        Err(fault) => return Err(fault),
    };
    match driven(alloc, run, hub, schedule) {
        Ok(log) => {
            puts_are_there();
            Ok(log)
        }
        Err(_) => Err(FirstFault::Memory),
    }
}
