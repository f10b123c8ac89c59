ghost use Rattle.std.specs.Prelude.{◌≡◌, ◌<◌, ◌≤◌, ◌+◌, ◌/◌, length, map, string_bytes};
ghost use Rattle.run_words.specs.Settings.{IsBelow, given_by, is_given, name_of, option_value, pair_count, pairs_before, times_given, word_at, with_one};

use wide_num::same;

/// How often an option is given, and as which pair if once.
#[derive(Clone, Copy, Debug, Drop, PartialEq, Eq)]
pub enum Given {
    Never,
    Once(usize),
    Again,
}

impl Given {
    // The same with one pair more.
    fn with(self, pair: usize) -> Given
        ensures { result ≡ with_one self pair }
    {
        match self {
            Given::Never => Given::Once(pair),
            Given::Once(_) => Given::Again,
            Given::Again => Given::Again,
        }
    }
}

/// The word at a place; empty past the end.
pub fn word(words: &[String], k: usize) -> &str
    ensures { result.now ≡ word_at (map string_bytes words.now) k }
{
    match words.get(k) {
        Some(word) => word.as_str(),
        None => "",
    }
}

/// How many pairs of a name and a value the words are.
pub fn pair_count(words: &[String]) -> usize
    ensures { result ≡ pair_count (map string_bytes words.now) }
{
    words.len() / 2
}

/// The name of a pair that is there.
pub fn name_of(words: &[String], pair: usize) -> &[u8]
    requires { pair < pair_count (map string_bytes words.now) }
    ensures { result.now ≡ name_of (map string_bytes words.now) pair }
{
    word(words, 2 * pair).as_bytes()
}

/// The value of a pair that is there.
pub fn option_value(words: &[String], pair: usize) -> &[u8]
    requires { pair < pair_count (map string_bytes words.now) }
    ensures { result.now ≡ option_value (map string_bytes words.now) pair }
{
    word(words, 2 * pair + 1).as_bytes()
}

// A pair more, if it begins with the name.
fn step(words: &[String], name: &[u8], pair: usize, given: Given) -> Given
    requires there { pair < pair_count (map string_bytes words.now) }
    requires below { IsBelow given pair }
    requires so_far { given ≡ given_by (pairs_before name.now (map string_bytes words.now) pair) }
    ensures exact { result
        ≡ given_by (pairs_before name.now (map string_bytes words.now) (pair + 1)) }
    ensures below { IsBelow result (pair + 1) }
{
    if same(name_of(words, pair), name) {
        given.with(pair)
    } else {
        given
    }
}

/// How often the words give the option of this name.
pub fn times_given(words: &[String], name: &[u8]) -> Given
    ensures exact { result ≡ times_given name.now (map string_bytes words.now) }
    ensures below { IsBelow result (pair_count (map string_bytes words.now)) }
{
    let mut given = Given::Never;
    for pair in 0..pair_count(words) {
        given = step(words, name, pair, given);
    }
    given
}

/// Whether the words give the option of this name.
pub fn is_given(words: &[String], name: &[u8]) -> bool
    ensures { result ≡ is_given name.now (map string_bytes words.now) }
{
    match times_given(words, name) {
        Given::Never => false,
        Given::Once(_) => true,
        Given::Again => true,
    }
}
