ghost use Rattle.std.specs.Prelude.{◌≡◌, ◌≤◌, IfOk};
ghost use Rattle.put_codec.specs.Layouts.{windows_of};
ghost use Rattle.board_tests.specs.Desks.{AreFresh, StaysBut, viewed};
ghost use Rattle.board_tests.specs.Sitting.{IsGiven, Sits};

use crate::actors::{Act, Actor, Told};
use crate::desks::Desk;
use crate::given::Given;
use plain_board::PlainBoard;
use put_codec::RunMeaning;
use std::alloc::{AllocError, Global};
use std::marker::Model;
use std::mem;
use window_words::Meaning;

/// A board on one thread, with an actor at each seat. Contracts see how many there are.
#[derive(Drop)]
pub struct PlainDesk<'a> {
    given: &'a Given,
    board: PlainBoard<RunMeaning>,
    actors: Vec<Actor>,
}

impl<'a> Model for PlainDesk<'a> {
    ghost use Rattle.std.specs.Prelude.{ℕ, length};
    ghost use Rattle.board_tests.specs.Desks.{IsPlainDesk};

    ghost Value = { ℕ };

    ghost view = { λ d. length d.actors.items };

    ghost invariant = { λ d. IsPlainDesk d.given.now d.board d.actors.items };
}

/// What the actor at a seat of a board does that it is asked to.
fn act_at(
    alloc: Global,
    given: &Given,
    board: &mut PlainBoard<RunMeaning>,
    seat: usize,
    actor: Actor,
    act: Act,
) -> Result<(Actor, Told), AllocError>
    requires given { IsGiven given.now }
    requires of { board.old.0 ≡ given.now.of }
    requires seat { seat ≤ windows_of given.now.of.layout }
    requires sits { Sits given.now.run (viewed board.old seat) actor }
    ensures stays { StaysBut seat board.old board.new }
    ensures sits { IfOk result (λ it. Sits given.now.run (viewed board.new seat) it.0) }
{
    board.select(seat);
    actor.act(alloc, act, given, board)
}

/// The actors at the seats of a fresh board.
fn actors(alloc: Global, given: &Given) -> Result<Vec<Actor>, AllocError>
    requires { IsGiven given.now }
    ensures { IfOk result (λ actors. AreFresh given.now actors.items) }
{
    let mut actors = Vec::new(alloc);
    for place in 0..given.of.windows() + 1 {
        let actor = Actor::new(alloc, given, place)?;
        actors.push(actor)?;
    }
    Ok(actors)
}

impl<'a> PlainDesk<'a> {
    /// At a fresh board.
    pub fn new(alloc: Global, given: &'a Given) -> Result<PlainDesk<'a>, AllocError>
        requires { IsGiven given.now }
    {
        let board = PlainBoard::new(alloc, given.meaning())?;
        let actors = actors(alloc, given)?;
        Ok(PlainDesk {
            given,
            board,
            actors,
        })
    }
}

impl<'a> Desk for PlainDesk<'a> {
    fn turn(&mut self, alloc: Global, seat: usize, act: Act) -> Result<Told, AllocError> {
        if seat >= self.actors.len() {
            return Ok(Told::Idle);
        }
        let actor = mem::replace(&mut self.actors[seat], Actor::Gone);
        let (actor, told) = act_at(alloc, self.given, &mut self.board, seat, actor, act)?;
        self.actors[seat] = actor;
        Ok(told)
    }
}
