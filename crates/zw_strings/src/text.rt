//! What methods ask of texts and make of them.
ghost use Rattle.std.specs.Prelude.{◌≡◌, ◌++◌, map, IfOk, string_bytes};
ghost use Rattle.zw_def.specs.Constant.{raised, lowered, capitalized};
ghost use Rattle.zw_def_world.specs.Value.{int};
ghost use Rattle.zw_def_world.specs.StringRows.{precedes, pair_compared, begins_with, ends_with, holds, stripped, without_prefix, without_suffix};

use std::alloc::{AllocError, Global};

/// Whether a text stands before another one, by their bytes.
pub(crate) fn precedes(one: &str, other: &str) -> bool
    ensures { result ≡ precedes one.now other.now }
{
    one < other
}

/// The number that compares two texts.
pub(crate) fn compared(one: &str, other: &str) -> i64
    ensures { pair_compared (precedes one.now other.now) (precedes other.now one.now) ≡ int result }
{
    if precedes(one, other) {
        -1
    } else if precedes(other, one) {
        1
    } else {
        0
    }
}

/// Whether a text begins with another one.
pub(crate) fn begins_with(text: &str, prefix: &str) -> bool
    ensures { result ≡ begins_with prefix.now text.now }
{
    text.as_bytes().strip_prefix(prefix.as_bytes()).is_some()
}

/// Whether a text ends with another one.
pub(crate) fn ends_with(text: &str, suffix: &str) -> bool
    ensures { result ≡ ends_with suffix.now text.now }
{
    text.as_bytes().strip_suffix(suffix.as_bytes()).is_some()
}

/// Whether a text stands somewhere in another one.
pub(crate) fn holds(text: &str, part: &str) -> bool
    ensures { result ≡ holds part.now text.now }
{
    text.contains(part)
}

/// A text and another one behind it.
pub(crate) fn joined(alloc: Global, front: &str, back: &str) -> Result<String, AllocError>
    ensures { IfOk result (λ made. string_bytes made ≡ front.now ++ back.now) }
{
    let mut made = String::from_str(alloc, front)?;
    made.push_str(back)?;
    Ok(made)
}

/// A text with its letters raised.
pub(crate) fn upcased(alloc: Global, text: &str) -> Result<String, AllocError>
    ensures { IfOk result (λ made. string_bytes made ≡ map raised text.now) }
{
    let mut made = String::from_str(alloc, text)?;
    made.make_ascii_uppercase();
    Ok(made)
}

/// A text with its letters lowered.
pub(crate) fn downcased(alloc: Global, text: &str) -> Result<String, AllocError>
    ensures { IfOk result (λ made. string_bytes made ≡ map lowered text.now) }
{
    let mut made = String::from_str(alloc, text)?;
    made.make_ascii_lowercase();
    Ok(made)
}

/// A text without another one at its begin.
pub(crate) fn without_prefix<'a>(text: &'a str, prefix: &str) -> &'a str
    ensures { result.now ≡ without_prefix prefix.now text.now }
{
    match text.strip_prefix(prefix) {
        Some(rest) => rest,
        None => text,
    }
}

/// A text without another one at its end.
pub(crate) fn without_suffix<'a>(text: &'a str, suffix: &str) -> &'a str
    ensures { result.now ≡ without_suffix suffix.now text.now }
{
    match text.strip_suffix(suffix) {
        Some(rest) => rest,
        None => text,
    }
}

/// A text with its first letter raised and the others lowered.
pub(crate) fn capitalized(alloc: Global, text: &str) -> Result<String, AllocError>
    ensures { IfOk result (λ made. string_bytes made ≡ capitalized text.now) }
{
    let mut made = String::new(alloc);
    let mut rest = text.chars();
    let Some(first) = rest.next() else {
        return Ok(made);
    };
    made.push(first.to_ascii_uppercase())?;
    made.push_str(downcased(alloc, rest.as_str())?.as_str())?;
    Ok(made)
}

/// NUL, and white space of ASCII.
const SPACES: [char; 7] = ['\0', '\t', '\n', '\u{b}', '\u{c}', '\r', ' '];

/// A text without NUL and white space at its ends.
pub(crate) fn stripped(text: &str) -> &str
    ensures { result.now ≡ stripped text.now }
{
    text.trim_start_matches(SPACES).trim_end_matches(SPACES)
}
