ghost use Rattle.std.specs.Prelude.{◌≡◌, ◌≤◌, true, IfOk};
ghost use Rattle.put_codec.specs.Layouts.{windows_of};
ghost use Rattle.board_tests.specs.Desks.{AreFreshSeats, IsFreshSeat};
ghost use Rattle.board_tests.specs.Sitting.{IsGiven, Sits};

use crate::actors::{Act, Actor, Told};
use crate::desks::Desk;
use crate::given::Given;
use crate::solo::{ReadingSeat, WritingSeat};
use put_codec::RunMeaning;
use std::alloc::{AllocError, Global};
use std::marker::Model;
use std::mem;
use table_board::{TableBoard, TableSeat};

/// A seat of a table, with its actor.
#[derive(Drop)]
pub struct Seated<'a> {
    given: &'a Given,
    seat: TableSeat<'a, RunMeaning>,
    actor: Actor,
}

impl<'a> Model for Seated<'a> {
    ghost use Rattle.std.specs.Prelude.{ℕ};
    ghost use Rattle.board_tests.specs.Desks.{IsSeated};

    ghost Value = { ℕ };

    ghost view = { λ s. 0 };

    ghost invariant = { λ s. IsSeated s.given.now s.seat s.actor };
}

impl<'a> Seated<'a> {
    /// An actor that sits at a seat.
    fn new(given: &'a Given, seat: TableSeat<'a, RunMeaning>, actor: Actor) -> Seated<'a>
        requires given { IsGiven given.now }
        requires of { seat.1 ≡ given.now.of }
        requires sits { Sits given.now.run seat.2 actor }
    {
        Seated { given, seat, actor }
    }

    /// What the actor is asked to do, and what it tells.
    pub fn turn(&mut self, alloc: Global, act: Act) -> Result<Told, AllocError> {
        let actor = mem::replace(&mut self.actor, Actor::Gone);
        let (actor, told) = actor.act(alloc, act, self.given, &mut self.seat)?;
        self.actor = actor;
        Ok(told)
    }

    /// The seat of a reader of puts, alone; none where another sits there.
    pub fn into_reading(self) -> Option<ReadingSeat<'a>> {
        let Seated { given, seat, actor } = self;
        match actor {
            Actor::Reader(reader) => Some(ReadingSeat::new(given, seat, reader)),
            _ => None,
        }
    }

    /// The seat of a rank, alone; none where another sits there.
    pub fn into_writing(self) -> Option<WritingSeat<'a>> {
        let Seated { given, seat, actor } = self;
        match actor {
            Actor::Rank(writer) => Some(WritingSeat::new(given, seat, writer)),
            _ => None,
        }
    }
}

/// The seats of a table, each with its actor.
#[derive(Drop)]
pub struct TableDesk<'a> {
    pub seats: Vec<Seated<'a>>,
}

impl<'a> TableDesk<'a> {
    /// At a fresh board with the meaning that is given.
    pub fn new(
        alloc: Global,
        given: &'a Given,
        board: &'a mut TableBoard<RunMeaning>,
    ) -> Result<TableDesk<'a>, AllocError>
        requires given { IsGiven given.now }
        requires fresh { board.old.2 ≡ true }
        requires of { board.old.1 ≡ given.now.of }
    {
        let seats = board.seats(alloc)?;
        let mut seats = TableDesk::taken(alloc, given, seats.into_vec())?;
        seats.reverse();
        Ok(TableDesk { seats })
    }

    /// The seats of a fresh board with their actors, from the last on.
    fn taken(
        alloc: Global,
        given: &'a Given,
        mut seats: Vec<TableSeat<'a, RunMeaning>>,
    ) -> Result<Vec<Seated<'a>>, AllocError>
        requires given { IsGiven given.now }
        requires seats { AreFreshSeats given.now seats.items }
    {
        let mut taken = Vec::new(alloc);
        for _ in 0..seats.len() {
            let Some(seat) = seats.pop() else {
                return Ok(taken);
            };
            let seated = TableDesk::seated(alloc, given, seats.len(), seat)?;
            taken.push(seated)?;
        }
        Ok(taken)
    }

    /// A seat of a fresh board, by its place, with its actor.
    fn seated(
        alloc: Global,
        given: &'a Given,
        place: usize,
        seat: TableSeat<'a, RunMeaning>,
    ) -> Result<Seated<'a>, AllocError>
        requires given { IsGiven given.now }
        requires place { place ≤ windows_of given.now.of.layout }
        requires seat { IsFreshSeat given.now place seat }
    {
        let actor = Actor::new(alloc, given, place)?;
        Ok(Seated::new(given, seat, actor))
    }
}

impl<'a> Desk for TableDesk<'a> {
    fn turn(&mut self, alloc: Global, seat: usize, act: Act) -> Result<Told, AllocError> {
        match self.seats.get_mut(seat) {
            Some(seated) => seated.turn(alloc, act),
            None => Ok(Told::Idle),
        }
    }
}
