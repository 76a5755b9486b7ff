//! The parts of a command's line.
ghost use Rattle.std.specs.Prelude.{◌≡◌};
ghost use Rattle.std.specs.List.{list_all, position};
ghost use Rattle.zw_def.specs.Line.{is_blank, line_of, after_line};
ghost use Rattle.zw_def_session.specs.Commands as spec;

/// The line without a CR at its end.
pub(crate) fn without_return(line: &str) -> &str
    ensures { result.now ≡ spec.without_return line.now }
{
    match line.strip_suffix('\r') {
        Some(front) => front,
        None => line,
    }
}

/// Whether a line has spaces and tabs alone.
pub(crate) fn is_blank(line: &str) -> bool
    ensures { result ≡ list_all is_blank line.now }
{
    line.bytes().all(|b| b == b' ' || b == b'\t')
}

/// Whether a line is a comment.
pub(crate) fn is_comment(line: &[u8]) -> bool
    ensures { result ≡ spec.is_comment line.now }
{
    match line.split_first() {
        None => false,
        Some((first, _)) => *first == b'#',
    }
}

/// The first word of a line, and what follows the space after it.
pub(crate) fn first_word(line: &str) -> (&str, &str)
    ensures word { result.0.now ≡ spec.first_word line.now }
    ensures rest { result.1.now ≡ spec.rest_of line.now }
{
    match line.split_once(' ') {
        Some((word, rest)) => (word, rest),
        None => (line, ""),
    }
}

/// What stands before the last space, and the word behind it.
pub(crate) fn last_word(rest: &str) -> (&str, &str)
    ensures before { result.0.now ≡ spec.before_last_space rest.now }
    ensures word { result.1.now ≡ spec.last_word rest.now }
{
    match rest.rsplit_once(' ') {
        Some((front, word)) => (front, word),
        None => ("", rest),
    }
}

// Where the first LF stands.
fn line_end(bytes: &[u8]) -> Option<usize>
    ensures { result ≡ position spec.is_line_end bytes.now }
{
    bytes.iter().position(|b| *b == b'\n')
}

/// The first of some lines without its LF, and what follows it.
pub(crate) fn first_line(bytes: &[u8]) -> (&[u8], &[u8])
    ensures line { result.0.now ≡ line_of bytes.now }
    ensures after { result.1.now ≡ after_line bytes.now }
{
    match line_end(bytes) {
        Some(at) => (&bytes[..at], &bytes[at + 1..]),
        None => (bytes, &[]),
    }
}
