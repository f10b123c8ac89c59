ghost use Rattle.std.specs.Prelude.{◌≡◌, IfOk};
ghost use Rattle.drive_words.specs.Worlds.{first_world};
ghost use Rattle.hub_cylinder.specs.Hubs.{IsFresh, IsHub};
ghost use Rattle.schedule_core.specs.Drivers.{AreNewPolls, AreNewRanks, AreNewSpokes, IsDriver, world_of};

use crate::driver::Driver;
use hub_cylinder::Hub;
use lagrangian_spoke::LagrangianSpoke;
use plain_board::PlainBoard;
use put_codec::{RunMeaning, meaning};
use put_read::SpokeReader;
use rank_writer::RankWriter;
use sp_model::Run;
use std::alloc::{AllocError, Global};

// The ranks, which have written nothing.
fn new_ranks(alloc: Global, run: &Run, of: &RunMeaning) -> Result<Vec<RankWriter>, AllocError>
    requires { of.now.run.value ≡ run.now }
    ensures { IfOk result (λ ranks. AreNewRanks run.now ranks.items) }
{
    let mut ranks = Vec::new(alloc);
    for rank in 0..run.options.ranks {
        ranks.push(RankWriter::new(of, rank))?;
    }
    Ok(ranks)
}

// The spokes, which have answered nothing.
fn new_spokes(alloc: Global, run: &Run) -> Result<Vec<LagrangianSpoke>, AllocError>
    ensures { IfOk result (λ spokes. AreNewSpokes run.now spokes.items) }
{
    let mut spokes = Vec::new(alloc);
    for number in 0..run.options.lagrangian {
        let spoke = LagrangianSpoke::start(alloc, run, number)?;
        spokes.push(spoke)?;
    }
    Ok(spokes)
}

// A reader of each spoke's window.
fn new_polls(alloc: Global, run: &Run) -> Result<Vec<SpokeReader>, AllocError>
    ensures { IfOk result (λ polls. AreNewPolls run.now polls.items) }
{
    let mut polls = Vec::new(alloc);
    for number in 0..run.options.lagrangian {
        polls.push(SpokeReader::new(run.options.ranks + number))?;
    }
    Ok(polls)
}

impl Driver {
    /// All actors behind the making of put 1, by a hub that has made it. It takes here all
    /// the memory that the windows and their readers need.
    pub fn new(alloc: Global, run: &Run, hub: Hub) -> Result<Driver, AllocError>
        requires hub { IsHub run.now hub }
        requires fresh { IsFresh hub }
        ensures driver { IfOk result (IsDriver run.now) }
        ensures first { IfOk result (λ driver. world_of driver ≡ first_world run.now) }
        ensures hub { IfOk result (λ driver. driver.hub ≡ hub) }
    {
        let of = meaning(run);
        let board = PlainBoard::new(alloc, meaning(run))?;
        let ranks = new_ranks(alloc, run, &of)?;
        let spokes = new_spokes(alloc, run)?;
        let polls = new_polls(alloc, run)?;
        Ok(Driver {
            of,
            board,
            hub,
            ranks,
            spokes,
            polls,
            asks: 0,
            is_stopped: false,
        })
    }
}
