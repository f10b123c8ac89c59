//! The rule of a table of windows, and what each kind of step tells.
ghost use Rattle.window_words.specs.Rule.{Windows};
ghost use Rattle.window_words.specs.Steps.{opens, puts, closes, begins, reads, ends, stops, asks};
ghost use Rattle.window_words.specs.Seating.{deals, dealt_out, joined, nobody};
ghost use Rattle.table_board.specs.Tables.{first_seat};

use atomic_table::{Join, Play, Split, TableRule};
use std::marker::PhantomData;
use window_words::{Known, Meaning};

/// What holds between any two steps.
pub struct Ruled<M> {
    meaning: PhantomData<M>,
}

impl<M: Meaning> TableRule<u8, Known<M>, M> for Ruled<M> {
    ghost holds = { λ m. Windows (M.entry m) (M.wide m) (M.count m) (M.lead m) (M.last m) m };

    ghost first = { λ m. first_seat (M.count m) m };
}

pub struct OpenPut;

impl<M> Play<u8, Known<M>> for OpenPut {
    ghost then = { opens };
}

pub struct PutWord;

impl<M> Play<u8, Known<M>> for PutWord {
    ghost then = { puts };
}

pub struct ClosePut;

impl<M> Play<u8, Known<M>> for ClosePut {
    ghost then = { closes };
}

pub struct BeginRead<M> {
    meaning: PhantomData<M>,
}

impl<M: Meaning> Play<u8, Known<M>> for BeginRead<M> {
    ghost then = { begins M.wide };
}

pub struct ReadWord;

impl<M> Play<u8, Known<M>> for ReadWord {
    ghost then = { reads };
}

pub struct EndRead<M> {
    meaning: PhantomData<M>,
}

impl<M: Meaning> Play<u8, Known<M>> for EndRead<M> {
    ghost then = { ends M.entry M.wide M.lead M.last };
}

pub struct StopHub;

impl<M> Play<u8, Known<M>> for StopHub {
    ghost then = { stops };
}

pub struct AskHub;

impl<M> Play<u8, Known<M>> for AskHub {
    ghost then = { asks };
}

/// A window is handed out.
pub struct Deal;

impl<M> Split<Known<M>> for Deal {
    ghost left = { deals };

    ghost right = { dealt_out };
}

/// A seat is taken in.
pub struct TakeIn<M> {
    meaning: PhantomData<M>,
}

impl<M: Meaning> Join<Known<M>> for TakeIn<M> {
    ghost both = { joined M.lead };

    ghost spent = { nobody };
}
