ghost use Rattle.std.specs.Prelude.{◌≡◌, ◌≤◌, ◌+◌, IfSome, map, option_map, string_bytes};
ghost use Rattle.std.specs.Option.{option_copied};
ghost use Rattle.sp_model.specs.RunFacts.{OptionFacts};
ghost use Rattle.run_words.specs.Words.{action_of, are_file_names, command_at, command_of, file_count, has_needed, is_command, is_file_name, options_of, request_of, schedule_of, words_behind};

use crate::command::{Action, Command};
use crate::given::{is_given, word};
use crate::settings::{
    MAX_SPOKES, are_options, budget, gap, iterations, lagrangian, missing, ranks, rho, scale, xhat,
};
use sp_model::Options;
use wide_num::same;

// What the first word asks to do.
fn action_of(word: &[u8]) -> Option<Action>
    ensures { result ≡ action_of word.now }
{
    if same(word, b"wait") {
        return Some(Action::Wait);
    }
    if same(word, b"show") {
        return Some(Action::Show);
    }
    if same(word, b"drive") {
        return Some(Action::Drive);
    }
    None
}

// How many files an action has.
fn file_count(action: Action) -> usize
    ensures count { result ≡ file_count action }
    ensures few { result ≤ 4 }
{
    match action {
        Action::Wait => 3,
        Action::Show => 3,
        Action::Drive => 4,
    }
}

// The schedule's name, if the action has one.
fn schedule_of(words: &[String], action: Action) -> Option<&str>
    ensures { option_copied result ≡ schedule_of (map string_bytes words.now) action }
{
    match action {
        Action::Wait => None,
        Action::Show => None,
        Action::Drive => Some(word(words, 4)),
    }
}

// The words behind the files.
fn words_behind(words: &[String], action: Action) -> &[String]
    ensures { map string_bytes result.now ≡ words_behind (map string_bytes words.now) action }
{
    match words.get(file_count(action) + 1..) {
        Some(behind) => behind,
        None => &[],
    }
}

// A file name doesn't begin with `-`.
fn is_file_name(word: &str) -> bool
    ensures { result ≡ is_file_name word.now }
{
    match word.as_bytes() {
        [b'-', ..] => false,
        _ => true,
    }
}

// Whether the words behind the first are file names, so many.
fn are_file_names(words: &[String], files: usize) -> bool
    requires { files ≤ 4 }
    ensures { result ≡ are_file_names (map string_bytes words.now) files }
{
    for k in 0..files {
        if !is_file_name(word(words, k + 1)) {
            return false;
        }
    }
    true
}

// Whether an option that the action must be given is among those that are.
fn has_needed(given: &[String], action: Action) -> bool
    ensures { result ≡ has_needed (map string_bytes given.now) action }
{
    match action {
        Action::Wait => true,
        Action::Show => true,
        Action::Drive => is_given(given, b"--xhat"),
    }
}

// Whether the words have the form of a command of this action.
fn is_command(words: &[String], action: Action) -> bool
    ensures { result ≡ is_command (map string_bytes words.now) action }
{
    let files = file_count(action);
    let given = words_behind(words, action);
    if words.len() < files + 1 {
        return false;
    }
    if given.len() % 2 != 0 {
        return false;
    }
    if !are_file_names(words, files) {
        return false;
    }
    are_options(given) && has_needed(given, action)
}

// The options that the words behind the files set.
fn options_of(given: &[String]) -> Option<Options>
    ensures value { result ≡ options_of (map string_bytes given.now) }
    ensures range { IfSome result OptionFacts }
    ensures alone { IfSome result (λ options. options.xhat ≡ 0) }
{
    let scale = scale(given)?;
    let rho = rho(given)?;
    let iterations = iterations(given)?;
    let ranks = ranks(given)?;
    let lagrangian = lagrangian(given)?;
    let xhat = xhat(given)?;
    let gap = gap(given)?;
    let budget = budget(given)?;
    let missing = missing(given)?;
    if MAX_SPOKES < lagrangian + xhat {
        return None;
    }
    Some(Options {
        scale: i128::from(scale),
        rho: i128::from(rho),
        iterations,
        ranks: ranks as usize,
        lagrangian: lagrangian as usize,
        xhat: xhat as usize,
        candidates: 2,
        mean: false,
        gap: i128::from(gap),
        budget,
        missing: missing as i64,
    })
}

// What the words ask for, if they are a command of this action.
fn command_at(words: &[String], action: Action) -> Option<Command<'_>>
    ensures value { option_map request_of result
        ≡ command_at (map string_bytes words.now) action }
    ensures range { IfSome result (λ command. OptionFacts command.options) }
    ensures alone { IfSome result (λ command. command.options.xhat ≡ 0) }
{
    if !is_command(words, action) {
        return None;
    }
    let options = options_of(words_behind(words, action))?;
    Some(Command {
        action,
        core: word(words, 1),
        time: word(words, 2),
        stoch: word(words, 3),
        schedule: schedule_of(words, action),
        options,
    })
}

/// What the words ask for. None comes exactly where they aren't an action, the
/// names of its files, none of which begins with `-`, and pairs of an option and
/// a number in its range, in any order, each option once at most. `wait` and
/// `show` have three files and `drive` four, and `drive` must be given `--xhat`.
/// A number is one to nineteen digits, leading zeros allowed.
pub fn read_words(words: &[String]) -> Option<Command<'_>>
    ensures value { option_map request_of result ≡ command_of (map string_bytes words.now) }
    ensures range { IfSome result (λ command. OptionFacts command.options) }
    ensures alone { IfSome result (λ command. command.options.xhat ≡ 0) }
{
    command_at(words, action_of(word(words, 0).as_bytes())?)
}
