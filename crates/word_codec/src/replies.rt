ghost use Rattle.std.specs.Prelude.{◌≡◌, ◌<◌, IfErr, IfOk, slice_index};
ghost use Rattle.word_codec.specs.Spelling.{reply_words, AreReplyWords, IsFirstOff};

use crate::halves::{NotCanonical, high, joined, low};

/// A word of a reply: 0, 0, 0 for none, or 1 and the value's high and low bits.
pub fn reply_word(value: Option<i128>, index: usize) -> u64
    requires { index < 3 }
    ensures { result ≡ slice_index (reply_words value) index }
{
    let Some(value) = value else {
        return 0;
    };
    match index {
        0 => 1,
        1 => high(value),
        _ => low(value),
    }
}

/// The reply with these words. `NotCanonical` comes exactly where no reply has
/// them, at the first word that shows it.
pub fn decode_reply(words: [u64; 3]) -> Result<Option<i128>, NotCanonical>
    ensures ok { IfOk result (λ value. words ≡ reply_words value) }
    ensures err { IfErr result (λ fault. IsFirstOff AreReplyWords words fault.word) }
{
    if words[0] > 1 {
        return Err(NotCanonical { word: 0 });
    }
    if words[0] == 1 {
        return Ok(Some(joined(words[1], words[2])));
    }
    if words[1] != 0 {
        return Err(NotCanonical { word: 1 });
    }
    if words[2] != 0 {
        return Err(NotCanonical { word: 2 });
    }
    Ok(None)
}
