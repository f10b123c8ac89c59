ghost use Rattle.std.specs.Prelude.{◌≡◌, position};
ghost use Rattle.std.specs.List.{before_first};
ghost use Rattle.std.specs.Option.{option_copied};
ghost use Rattle.schedule_lines.specs.TurnWords.{actor_of, count_in, count_of, count_text, head_of, is_star, place_of, turn_of};

use crate::numeral::numeral;
use crate::schedule::{Actor, Crew, Turn};
use crate::schedule_fault::ScheduleKind;

/// The greatest number of steps of a word.
const MAX_COUNT: u128 = 1_000_000;

fn first_star(word: &[u8]) -> Option<usize>
    ensures { result ≡ position is_star word.now }
{
    word.iter().position(|byte| *byte == b'*')
}

// The head of a word, and what stands behind its first star.
fn cut(word: &[u8]) -> (&[u8], Option<&[u8]>)
    ensures head { result.0.now ≡ head_of word.now }
    ensures count { option_copied result.1 ≡ count_text word.now }
{
    match first_star(word) {
        None => (word, None),
        Some(star) => (&word[..star], Some(&word[star + 1..])),
    }
}

fn count_in(text: &[u8]) -> Option<u32>
    ensures { result ≡ count_in text.now }
{
    let Some(number) = numeral(text) else {
        return None;
    };
    if number < 1 || MAX_COUNT < number {
        return None;
    }
    Some(number as u32)
}

fn count_of(count: Option<&[u8]>) -> Option<u32>
    ensures { result ≡ count_of (option_copied count.entry) }
{
    match count {
        None => Some(1),
        Some(text) => count_in(text),
    }
}

fn place_of(most: usize, text: &[u8]) -> Result<usize, ScheduleKind>
    ensures { result ≡ place_of most text.now }
{
    let Some(number) = numeral(text) else {
        return Err(ScheduleKind::Word);
    };
    if number < 1 || (most as u128) < number {
        return Err(ScheduleKind::Actor);
    }
    Ok((number - 1) as usize)
}

fn actor_of(crew: Crew, head: &[u8]) -> Result<Actor, ScheduleKind>
    ensures { result ≡ actor_of crew head.now }
{
    match head {
        [b'h'] => Ok(Actor::Hub),
        [b'r', number @ ..] => match place_of(crew.ranks, number) {
            Ok(rank) => Ok(Actor::Rank(rank)),
            Err(kind) => Err(kind),
        },
        [b's', number @ ..] => match place_of(crew.spokes, number) {
            Ok(spoke) => Ok(Actor::Spoke(spoke)),
            Err(kind) => Err(kind),
        },
        _ => Err(ScheduleKind::Word),
    }
}

/// The turn that a word says. The fault `Word` comes before `Actor`.
pub fn turn_of(crew: Crew, word: &[u8]) -> Result<Turn, ScheduleKind>
    ensures { result ≡ turn_of crew word.now }
{
    let (head, count) = cut(word);
    let Some(count) = count_of(count) else {
        return Err(ScheduleKind::Word);
    };
    match actor_of(crew, head) {
        Ok(actor) => Ok(Turn { actor, count }),
        Err(kind) => Err(kind),
    }
}
