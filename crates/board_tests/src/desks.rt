use crate::actors::{Act, Told};
use log_words::SpokeStep;
use put_read::ReplyRead;
use sp_model::Run;
use stamped_read::Read;
use std::alloc::{AllocError, Global};

/// The seats of a board, each with its actor.
pub trait Desk {
    /// What the actor at a seat is asked to do, and what it tells; nothing is done where
    /// there is no such seat.
    fn turn(&mut self, alloc: Global, seat: usize, act: Act) -> Result<Told, AllocError>;
}

/// The seat of a letter's actor, and what it is asked to do: `1` and `2` are ranks, `s` is
/// the spoke, `r` the reader of puts, `h` the hub, and `x` its stop.
fn turn_of(run: &Run, letter: u8) -> Option<(usize, Act)> {
    let ranks = run.options.ranks;
    match letter {
        b'h' => Some((0, Act::Step)),
        b'x' => Some((0, Act::Stop)),
        b'1' => Some((1, Act::Step)),
        b'2' => Some((2, Act::Step)),
        b's' => Some((ranks.saturating_add(1), Act::Step)),
        b'r' => Some((ranks.saturating_add(2), Act::Step)),
        _ => None,
    }
}

/// What the actors at a desk tell, step by step.
pub fn answers<D: Desk>(
    alloc: Global,
    run: &Run,
    desk: &mut D,
    steps: &str,
) -> Result<Vec<Told>, AllocError> {
    let mut answers = Vec::new(alloc);
    for letter in steps.as_bytes() {
        if let Some((seat, act)) = turn_of(run, *letter) {
            let told = desk.turn(alloc, seat, act)?;
            answers.push(told)?;
        }
    }
    Ok(answers)
}

/// Whether an answer says more than that its actor went on.
fn is_news(told: Told) -> bool {
    !matches!(
        told,
        Told::Wrote
            | Told::Spoke(SpokeStep::Moved)
            | Told::Polled(ReplyRead::Going)
            | Told::Read(Read::Going)
    )
}

/// The answers that say more than that their actor went on.
pub fn text_of(alloc: Global, answers: &[Told]) -> Result<String, AllocError> {
    let mut text = String::new(alloc);
    for told in answers {
        if is_news(*told) {
            let one = format!(in alloc; "{told:?}; ")?;
            text.push_str(one.as_str())?;
        }
    }
    Ok(text)
}
