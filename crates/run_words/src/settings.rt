ghost use Rattle.std.specs.Prelude.{◌≡◌, ◌≤◌, ◌<◌, map, string_bytes, IfSome};
ghost use Rattle.run_words.specs.Numerals.{number_in};
ghost use Rattle.run_words.specs.Settings.{are_options, box_option, budget_option, gap_option, is_option, iterations_option, lagrangian_option, max_box, max_budget, max_gap, max_iterations, max_ranks, max_rho, max_scale, max_spokes, max_xhat, number_by, number_for, option_value, pair_count, ranks_option, rho_option, scale_option, xhat_option};

use crate::given::{Given, name_of, option_value, pair_count, times_given};
use crate::numeral::number_in;
use wide_num::same;

/// The greatest factor of the costs.
const MAX_SCALE: u64 = 1_000_000;

/// The greatest penalty.
const MAX_RHO: u64 = 1_000_000_000;

/// The greatest number of further puts.
const MAX_ITERATIONS: u64 = 100_000;

/// The greatest number of ranks.
const MAX_RANKS: u64 = 16;

/// The greatest number of spokes of all kinds together.
pub const MAX_SPOKES: u64 = 16;

/// The greatest number of xhat spokes: there are none yet.
const MAX_XHAT: u64 = 0;

/// The greatest gap at which a run ends.
const MAX_GAP: u64 = 1_000_000_000_000_000_000;

/// The greatest number of boxes that a solve opens.
const MAX_BUDGET: u64 = 1_000_000_000;

/// How far missing ends of boxes lie at most.
const MAX_BOX: u64 = 1_000_000_000;

// The number of the value of a pair that is there, in this range.
fn value_in(words: &[String], pair: usize, least: u64, greatest: u64) -> Option<u64>
    requires { pair < pair_count (map string_bytes words.now) }
    ensures value { result ≡ number_in least greatest
        (option_value (map string_bytes words.now) pair) }
    ensures range { IfSome result (λ k. (least ≤ k) × (k ≤ greatest)) }
{
    number_in(least, greatest, option_value(words, pair))
}

// The number that the words set for an option with this name, range and default.
fn number(words: &[String], name: &[u8], least: u64, greatest: u64, default: u64) -> Option<u64>
    requires low { least ≤ default }
    requires high { default ≤ greatest }
    ensures value { result
        ≡ number_for
        (record { name = name.now; least = least; greatest = greatest; default = default })
        (map string_bytes words.now) }
    ensures range { IfSome result (λ k. (least ≤ k) × (k ≤ greatest)) }
{
    match times_given(words, name) {
        Given::Never => Some(default),
        Given::Once(pair) => value_in(words, pair, least, greatest),
        Given::Again => None,
    }
}

/// The factor of all costs.
pub fn scale(words: &[String]) -> Option<u64>
    ensures value { result ≡ number_for scale_option (map string_bytes words.now) }
    ensures range { IfSome result (λ k. (1 ≤ k) × (k ≤ max_scale)) }
{
    number(words, b"--scale", 1, MAX_SCALE, 1000)
}

/// The penalty of the hedging.
pub fn rho(words: &[String]) -> Option<u64>
    ensures value { result ≡ number_for rho_option (map string_bytes words.now) }
    ensures range { IfSome result (λ k. (1 ≤ k) × (k ≤ max_rho)) }
{
    number(words, b"--rho", 1, MAX_RHO, 1000)
}

/// How many further puts the hub makes at most.
pub fn iterations(words: &[String]) -> Option<u64>
    ensures value { result ≡ number_for iterations_option (map string_bytes words.now) }
    ensures range { IfSome result (λ k. (0 ≤ k) × (k ≤ max_iterations)) }
{
    number(words, b"--iterations", 0, MAX_ITERATIONS, 20)
}

/// How many ranks there are.
pub fn ranks(words: &[String]) -> Option<u64>
    ensures value { result ≡ number_for ranks_option (map string_bytes words.now) }
    ensures range { IfSome result (λ k. (1 ≤ k) × (k ≤ max_ranks)) }
{
    number(words, b"--ranks", 1, MAX_RANKS, 1)
}

/// How many Lagrangian spokes there are.
pub fn lagrangian(words: &[String]) -> Option<u64>
    ensures value { result ≡ number_for lagrangian_option (map string_bytes words.now) }
    ensures range { IfSome result (λ k. (0 ≤ k) × (k ≤ max_spokes)) }
{
    number(words, b"--lagrangian", 0, MAX_SPOKES, 1)
}

/// How many xhat spokes there are.
pub fn xhat(words: &[String]) -> Option<u64>
    ensures value { result ≡ number_for xhat_option (map string_bytes words.now) }
    ensures range { IfSome result (λ k. (0 ≤ k) × (k ≤ max_xhat)) }
{
    number(words, b"--xhat", 0, MAX_XHAT, 0)
}

/// The gap at which the run ends.
pub fn gap(words: &[String]) -> Option<u64>
    ensures value { result ≡ number_for gap_option (map string_bytes words.now) }
    ensures range { IfSome result (λ k. (0 ≤ k) × (k ≤ max_gap)) }
{
    number(words, b"--gap", 0, MAX_GAP, 0)
}

/// How many boxes a solve opens at most.
pub fn budget(words: &[String]) -> Option<u64>
    ensures value { result ≡ number_for budget_option (map string_bytes words.now) }
    ensures range { IfSome result (λ k. (1 ≤ k) × (k ≤ max_budget)) }
{
    number(words, b"--budget", 1, MAX_BUDGET, 1_000_000)
}

/// How far missing ends of boxes lie.
pub fn missing(words: &[String]) -> Option<u64>
    ensures value { result ≡ number_for box_option (map string_bytes words.now) }
    ensures range { IfSome result (λ k. (1 ≤ k) × (k ≤ max_box)) }
{
    number(words, b"--box", 1, MAX_BOX, 1_000_000)
}

// Whether a word is the name of an option.
fn is_option(word: &[u8]) -> bool
    ensures { result ≡ is_option word.now }
{
    if same(word, b"--scale") {
        return true;
    }
    if same(word, b"--rho") {
        return true;
    }
    if same(word, b"--iterations") {
        return true;
    }
    if same(word, b"--ranks") {
        return true;
    }
    if same(word, b"--lagrangian") {
        return true;
    }
    if same(word, b"--xhat") {
        return true;
    }
    if same(word, b"--gap") {
        return true;
    }
    same(word, b"--budget") || same(word, b"--box")
}

/// Whether each pair begins with the name of an option.
pub fn are_options(words: &[String]) -> bool
    ensures { result ≡ are_options (map string_bytes words.now) }
{
    for pair in 0..pair_count(words) {
        if !is_option(name_of(words, pair)) {
            return false;
        }
    }
    true
}
