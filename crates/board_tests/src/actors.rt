ghost use Rattle.std.specs.Prelude.{◌≡◌, ◌≤◌, ◌+◌, All, IfOk, IfSome};
ghost use Rattle.put_codec.specs.Layouts.{windows_of};
ghost use Rattle.board_tests.specs.Sitting.{IsGiven, Makes, Sits, SitsFresh, SitsHub, WritesNext};
ghost use Rattle.lagrangian_spoke.specs.Spokes.{IsPutOf, StandsFor};

use crate::given::Given;
use lagrangian_spoke::{LagrangianSpoke, Phase};
use log_words::SpokeStep;
use put_codec::RunMeaning;
use put_read::{PutReader, ReplyRead, SpokeReader};
use rank_writer::RankWriter;
use run_calls::Put;
use sp_model::Run;
use stamped_read::Read;
use std::alloc::{AllocError, Global};
use window_words::Board;

/// The hub, which reads the first spoke's replies and stops once.
#[derive(Drop)]
pub struct HubSeat {
    pub poll: SpokeReader,
    pub has_stopped: bool,
}

/// Who sits at a seat.
#[derive(Drop)]
pub enum Actor {
    Hub(HubSeat),
    Rank(RankWriter),
    Spoke(LagrangianSpoke),
    Reader(PutReader),
    /// Nobody any more: memory was refused.
    Gone,
}

/// What an actor is asked to do.
#[derive(Clone, Copy, Debug, Drop, PartialEq, Eq)]
pub enum Act {
    /// Its next step.
    Step,
    /// The hub's stop.
    Stop,
}

/// What an actor tells of its step.
#[derive(Clone, Copy, Debug, Drop, PartialEq)]
pub enum Told {
    /// It had no step.
    Idle,
    Wrote,
    Spoke(SpokeStep),
    Polled(ReplyRead),
    Read(Read),
    Stopped,
}

impl HubSeat {
    /// The next step of the reading.
    fn poll<B: Board<Of = RunMeaning>>(&mut self, given: &Given, board: &mut B) -> ReplyRead
        requires given { IsGiven given.now }
        requires of { B.of board.old ≡ given.now.of }
        requires sits { SitsHub given.now.run (B.view board.old) self.old }
        ensures of { B.of board.new ≡ given.now.of }
        ensures sits { SitsHub given.now.run (B.view board.new) self.new }
        ensures made { Makes B.leaves board.old board.new }
    {
        let _given = given;
        self.poll.step(board)
    }

    /// Stops with the last put that was replied to, where it hasn't stopped.
    fn stop<B: Board<Of = RunMeaning>>(&mut self, given: &Given, board: &mut B) -> Told
        requires given { IsGiven given.now }
        requires of { B.of board.old ≡ given.now.of }
        requires sits { SitsHub given.now.run (B.view board.old) self.old }
        ensures of { B.of board.new ≡ given.now.of }
        ensures sits { SitsHub given.now.run (B.view board.new) self.new }
        ensures made { Makes B.leaves board.old board.new }
    {
        let _given = given;
        if self.has_stopped {
            return Told::Idle;
        }
        board.stop(self.poll.last().max(1));
        self.has_stopped = true;
        Told::Stopped
    }
}

/// The put that comes next behind this one.
fn put_after<'a>(puts: &'a [Put], run: &Run, last: u64) -> Option<&'a Put>
    requires { All (IsPutOf run.now) puts.now }
    ensures { IfSome result (λ put. IsPutOf run.now put.now × (put.now.number ≡ last + 1)) }
{
    let _run = run;
    for put in puts {
        if put.number > last && put.number - last == 1 {
            return Some(put);
        }
    }
    None
}

/// The next step of a rank, where there is a put for it to write.
pub fn write_on<B: Board<Of = RunMeaning>>(
    given: &Given,
    writer: &mut RankWriter,
    board: &mut B,
) -> Told
    requires given { IsGiven given.now }
    requires of { B.of board.old ≡ given.now.of }
    requires writes { WritesNext given.now.run (B.view board.old) writer.old }
    ensures of { B.of board.new ≡ given.now.of }
    ensures writes { WritesNext given.now.run (B.view board.new) writer.new }
    ensures made { Makes B.leaves board.old board.new }
{
    let Some(put) = put_after(given.puts.as_slice(), &given.run, writer.last) else {
        return Told::Idle;
    };
    writer.step(&given.of, put, board);
    Told::Wrote
}

/// The next step of a spoke, where it hasn't ended.
fn reply_on<B: Board<Of = RunMeaning>>(
    alloc: Global,
    given: &Given,
    spoke: &mut LagrangianSpoke,
    board: &mut B,
) -> Result<Told, AllocError>
    requires given { IsGiven given.now }
    requires of { B.of board.old ≡ given.now.of }
    requires stands { StandsFor given.now.run (B.view board.old) spoke.old }
    ensures of { B.of board.new ≡ given.now.of }
    ensures stands { IfOk result (λ _. StandsFor given.now.run (B.view board.new) spoke.new) }
    ensures made { Makes B.leaves board.old board.new }
{
    if spoke.phase == Phase::Ended {
        return Ok(Told::Idle);
    }
    match spoke.step(alloc, &given.run, board) {
        Ok(told) => Ok(Told::Spoke(told)),
        Err(error) => Err(error),
    }
}

/// The hub at its seat of a fresh board.
fn hub_at(given: &Given, place: usize) -> Actor
    requires given { IsGiven given.now }
    requires place { place ≡ 0 }
    ensures { SitsFresh given.now place result }
{
    let _place = place;
    let poll = SpokeReader::new(given.run.options.ranks);
    Actor::Hub(HubSeat {
        poll,
        has_stopped: false,
    })
}

/// A rank at its seat of a fresh board.
fn rank_at(given: &Given, place: usize) -> Actor
    requires given { IsGiven given.now }
    requires first { 1 ≤ place }
    requires last { place ≤ given.now.run.options.ranks }
    ensures { SitsFresh given.now place result }
{
    let writer = RankWriter::new(&given.of, place - 1);
    Actor::Rank(writer)
}

/// The first spoke at its seat of a fresh board.
fn spoke_at(alloc: Global, given: &Given, place: usize) -> Result<Actor, AllocError>
    requires given { IsGiven given.now }
    requires place { place ≡ given.now.run.options.ranks + 1 }
    requires there { place ≤ windows_of given.now.of.layout }
    ensures { IfOk result (SitsFresh given.now place) }
{
    let _place = place;
    let spoke = LagrangianSpoke::start(alloc, &given.run, 0)?;
    Ok(Actor::Spoke(spoke))
}

/// A reader of puts at a seat of a fresh board that isn't the hub's.
fn reader_at(alloc: Global, given: &Given, place: usize) -> Result<Actor, AllocError>
    requires given { IsGiven given.now }
    requires first { 1 ≤ place }
    requires there { place ≤ windows_of given.now.of.layout }
    ensures { IfOk result (SitsFresh given.now place) }
{
    let _place = place;
    let reader = PutReader::new(alloc, &given.run)?;
    Ok(Actor::Reader(reader))
}

impl Actor {
    /// Who sits at a place of a fresh board: the hub, the ranks, a spoke, and readers of
    /// the puts at the other spokes' seats.
    pub fn new(alloc: Global, given: &Given, place: usize) -> Result<Actor, AllocError>
        requires given { IsGiven given.now }
        requires place { place ≤ windows_of given.now.of.layout }
        ensures { IfOk result (SitsFresh given.now place) }
    {
        let ranks = given.run.options.ranks;
        if place == 0 {
            return Ok(hub_at(given, place));
        }
        if place <= ranks {
            return Ok(rank_at(given, place));
        }
        if place - ranks == 1 {
            return spoke_at(alloc, given, place);
        }
        reader_at(alloc, given, place)
    }

    /// Its next step.
    fn step<B: Board<Of = RunMeaning>>(
        self,
        alloc: Global,
        given: &Given,
        board: &mut B,
    ) -> Result<(Actor, Told), AllocError>
        requires given { IsGiven given.now }
        requires of { B.of board.old ≡ given.now.of }
        requires sits { Sits given.now.run (B.view board.old) self }
        ensures of { B.of board.new ≡ given.now.of }
        ensures sits { IfOk result (λ it. Sits given.now.run (B.view board.new) it.0) }
        ensures made { Makes B.leaves board.old board.new }
    {
        match self {
            Actor::Hub(mut hub) => {
                let told = hub.poll(given, board);
                Ok((Actor::Hub(hub), Told::Polled(told)))
            }
            Actor::Rank(mut writer) => {
                let told = write_on(given, &mut writer, board);
                Ok((Actor::Rank(writer), told))
            }
            Actor::Spoke(mut spoke) => {
                let told = reply_on(alloc, given, &mut spoke, board)?;
                Ok((Actor::Spoke(spoke), told))
            }
            Actor::Reader(mut reader) => {
                let told = reader.step(board);
                Ok((Actor::Reader(reader), Told::Read(told)))
            }
            Actor::Gone => Ok((Actor::Gone, Told::Idle)),
        }
    }

    /// The hub's stop; nobody else stops.
    fn stop<B: Board<Of = RunMeaning>>(self, given: &Given, board: &mut B) -> (Actor, Told)
        requires given { IsGiven given.now }
        requires of { B.of board.old ≡ given.now.of }
        requires sits { Sits given.now.run (B.view board.old) self }
        ensures of { B.of board.new ≡ given.now.of }
        ensures sits { Sits given.now.run (B.view board.new) result.0 }
        ensures made { Makes B.leaves board.old board.new }
    {
        match self {
            Actor::Hub(mut hub) => {
                let told = hub.stop(given, board);
                (Actor::Hub(hub), told)
            }
            other => (other, Told::Idle),
        }
    }

    /// What it is asked to do.
    pub fn act<B: Board<Of = RunMeaning>>(
        self,
        alloc: Global,
        act: Act,
        given: &Given,
        board: &mut B,
    ) -> Result<(Actor, Told), AllocError>
        requires given { IsGiven given.now }
        requires of { B.of board.old ≡ given.now.of }
        requires sits { Sits given.now.run (B.view board.old) self }
        ensures of { B.of board.new ≡ given.now.of }
        ensures sits { IfOk result (λ it. Sits given.now.run (B.view board.new) it.0) }
        ensures made { Makes B.leaves board.old board.new }
    {
        match act {
            Act::Step => self.step(alloc, given, board),
            Act::Stop => Ok(self.stop(given, board)),
        }
    }
}
