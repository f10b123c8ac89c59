ghost use Rattle.std.specs.Prelude.{◌≡◌, ◌<◌, length, position, IfSome};
ghost use Rattle.std.specs.List.{list_all};
ghost use Rattle.line_core.specs.Fields.{is_blank};
ghost use Rattle.line_core.specs.SplitLines.{begins_with_star, ends_with_return, is_comment, is_unindented, is_newline, is_plain, without_return};

/// The place of the first newline.
pub fn next_newline(text: &[u8]) -> Option<usize>
    ensures place { result ≡ position is_newline text.now }
    ensures within { IfSome result (λ at. at < length text.now) }
{
    text.iter().position(|byte| *byte == b'\n')
}

fn begins_with_star(text: &[u8]) -> bool
    ensures { result ≡ begins_with_star text.now }
{
    matches!(text, [b'*', ..])
}

fn is_all_blank(text: &[u8]) -> bool
    ensures { result ≡ list_all is_blank text.now }
{
    text.iter().all(|byte| *byte == b' ' || *byte == b'\t')
}

/// Whether a text is one that is skipped.
pub fn is_comment(text: &[u8]) -> bool
    ensures { result ≡ is_comment text.now }
{
    begins_with_star(text) || is_all_blank(text)
}

/// Whether a text begins with a byte that isn't a blank.
pub fn is_unindented(text: &[u8]) -> bool
    ensures { result ≡ is_unindented text.now }
{
    match text {
        [first, ..] => *first != b' ' && *first != b'\t',
        _ => false,
    }
}

/// Whether all bytes of a text are from 9 to 126.
pub fn is_plain(text: &[u8]) -> bool
    ensures { result ≡ is_plain text.now }
{
    text.iter().all(|byte| 9 <= *byte && *byte <= 126)
}

fn ends_with_return(text: &[u8]) -> bool
    ensures { result ≡ ends_with_return text.now }
{
    matches!(text.last(), Some(b'\r'))
}

/// A text without the carriage return at its end, if one stands there.
pub fn without_return(text: &[u8]) -> &[u8]
    ensures { result.now ≡ without_return text.now }
{
    if ends_with_return(text) {
        &text[..text.len() - 1]
    } else {
        text
    }
}
