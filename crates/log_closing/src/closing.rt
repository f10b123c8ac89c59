ghost use Rattle.std.specs.Prelude.{◌≡◌, ◌+◌, ◌*◌, ◌<◌, ◌≤◌, ℤ, [], ◌∷◌, length, option_to_list};
ghost use Rattle.std.specs.List.{All, filter_map};
ghost use Rattle.log_closing.specs.Closings.{Advances, HasPlace, HasPlaces, answers_at, left_behind, left_by, logs_of};
ghost use Rattle.log_words.specs.declared.log.Answer.TheVariants.{Reply};

use crate::events::{bound_from, take_event};
use crate::marks::is_marked;
use bound_ledger::Ledger;
use log_words::{Answer, SpokeEnd};
use run_log::{Event, Source};
use wide_num::Room;

/// What changes while the last takes are made: the pair and the events.
#[derive(Drop)]
pub struct Closing {
    pub ledger: Ledger,
    pub events: Room<Event>,
}

// The answers that a spoke hands over.
fn answers_at(ends: &[SpokeEnd], spoke: usize) -> &[Answer]
    requires { spoke < length ends.now }
    ensures { result.now ≡ answers_at ends.now spoke }
{
    ends[spoke].log.answers.as_slice()
}

impl Closing {
    /// Takes a reply.
    pub fn take(&mut self, source: Source, put: u64, value: Option<i128>)
        requires { 0 < self.old.events.spare }
        ensures { (first : ℤ) → Advances first self.old self.new
            (record { source = source; put = put; value = value } ∷ []) }
    {
        let pair = self.ledger.take(bound_from(source, value));
        self.events.push(take_event(source, put, value, pair));
    }

    // Takes a spoke's reply, if it isn't marked.
    fn take_reply(
        &mut self,
        marks: &[bool],
        most: usize,
        spoke: usize,
        put: u64,
        value: Option<i128>,
    )
        requires room { 0 < self.old.events.spare }
        requires place { put ≤ most }
        requires there { spoke * (most + 1) + most < length marks.now }
        ensures { (first : ℤ) → Advances first self.old self.new
            (option_to_list (left_by most marks.now spoke (Reply put value))) }
    {
        if is_marked(marks, most, spoke, put as usize) {
            return;
        }
        self.take(Source::Spoke(spoke), put, value);
    }

    // Takes a spoke's answer, if it is a reply that isn't marked.
    fn take_answer(&mut self, answer: Answer, marks: &[bool], most: usize, spoke: usize)
        requires room { 0 < self.old.events.spare }
        requires place { HasPlace most answer }
        requires there { spoke * (most + 1) + most < length marks.now }
        ensures { (first : ℤ) → Advances first self.old self.new
            (option_to_list (left_by most marks.now spoke answer)) }
    {
        match answer {
            Answer::Reply { put, value } => self.take_reply(marks, most, spoke, put, value),
            Answer::Skip { .. } => {}
        }
    }

    // Takes all such replies of a spoke.
    fn take_spoke(&mut self, answers: &[Answer], marks: &[bool], most: usize, spoke: usize)
        requires room { length answers.now ≤ self.old.events.spare }
        requires places { All (HasPlace most) answers.now }
        requires there { spoke * (most + 1) + most < length marks.now }
        ensures { (first : ℤ) → Advances first self.old self.new
            (filter_map (left_by most marks.now spoke) answers.now) }
    {
        for answer in answers {
            self.take_answer(*answer, marks, most, spoke);
        }
    }

    /// Takes the replies of all spokes that aren't marked, spoke by spoke and put by
    /// put.
    pub fn take_left(&mut self, ends: &[SpokeEnd], marks: &[bool], most: usize)
        requires room { length ends.now * most ≤ self.old.events.spare }
        requires places { All (HasPlaces most) (logs_of ends.now) }
        requires there { length marks.now ≡ length ends.now * (most + 1) }
        ensures { (first : ℤ) → Advances first self.old self.new
            (left_behind most marks.now 0 (logs_of ends.now)) }
    {
        for spoke in 0..ends.len() {
            self.take_spoke(answers_at(ends, spoke), marks, most, spoke);
        }
    }
}
