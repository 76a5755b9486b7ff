//! The pieces of a text between the places of a separator.
ghost use Rattle.std.specs.Prelude.{◌≡◌, ◌<◌, ℕ, suc, [], length, map, reverse, string_bytes, IfOk};
ghost use Rattle.zw_def_world.specs.StringRows.{cut, without_empty_end};
ghost use Rattle.zw_strings.specs.Pieces.{begins_empty};

use std::alloc::{AllocError, Global};

/// The pieces between the places of a separator that is not empty, from the left.
fn cut(alloc: Global, text: &str, separator: &str) -> Result<Vec<String>, AllocError>
    requires { 0 < length separator.now }
    ensures { IfOk result (λ made. map string_bytes made.items ≡ cut (suc (length text.now)) separator.now [] text.now) }
{
    let mut pieces = Vec::new(alloc);
    let mut rest = text;
    while let Some((piece, after)) = rest.split_once(separator) {
        pieces.push(String::from_str(alloc, piece)?)?;
        rest = after;
    }
    pieces.push(String::from_str(alloc, rest)?)?;
    Ok(pieces)
}

/// Whether the last text is empty.
fn has_empty_end(pieces: &[String]) -> bool
    ensures { result ≡ begins_empty (reverse (map string_bytes pieces.now)) }
{
    match pieces.last() {
        Some(last) => last.is_empty(),
        None => false,
    }
}

/// The texts without the empty ones at the end.
fn without_empty_end(mut pieces: Vec<String>) -> Vec<String>
    ensures { map string_bytes result.items ≡ without_empty_end (map string_bytes pieces.items) }
{
    while has_empty_end(&pieces) {
        pieces.pop();
    }
    pieces
}

/// The pieces between the places of a separator that is not empty, without the empty ones at the end.
pub(crate) fn split(alloc: Global, text: &str, separator: &str) -> Result<Vec<String>, AllocError>
    requires { 0 < length separator.now }
    ensures { IfOk result (λ made. map string_bytes made.items
        ≡ without_empty_end (cut (suc (length text.now)) separator.now [] text.now)) }
{
    Ok(without_empty_end(cut(alloc, text, separator)?))
}
