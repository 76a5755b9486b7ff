//! The characters of texts.
ghost use Rattle.std.specs.Prelude.{◌≡◌, ◌≤◌, length, map, reverse, drop, take, string_bytes, IfOk};
ghost use Rattle.std.specs.Char.{encode_utf8};
ghost use Rattle.std.specs.Str.{chars};
ghost use Rattle.zw_def_world.specs.StringRows.{of_characters, place_in};

use std::alloc::{AllocError, Global};

/// How many characters there are.
pub(crate) fn size(text: &str) -> usize
    ensures value { result ≡ length (chars text.now) }
    ensures few { result ≤ length text.now }
{
    text.chars().count()
}

/// The characters.
fn characters(alloc: Global, text: &str) -> Result<Vec<char>, AllocError>
    ensures { IfOk result (λ characters. characters.items ≡ chars text.now) }
{
    text.chars().collect(alloc)
}

/// A text with its characters from the last to the first.
pub(crate) fn reversed(alloc: Global, text: &str) -> Result<String, AllocError>
    ensures { IfOk result (λ made. string_bytes made ≡ of_characters (reverse (chars text.now))) }
{
    let characters = characters(alloc, text)?;
    characters.iter().rev().copied().collect(alloc)
}

/// Of so many places the one that a number tells, from the start or from the end.
pub(crate) fn place_in(number: i64, size: usize) -> Option<usize>
    ensures { result ≡ place_in number size }
{
    if number < 0 {
        size.checked_sub(number.unsigned_abs() as usize)
    } else {
        Some(number as usize)
    }
}

/// So many characters from a place on, or fewer where the text ends.
pub(crate) fn part(
    alloc: Global,
    text: &str,
    place: usize,
    count: usize,
) -> Result<String, AllocError>
    ensures { IfOk result (λ made. string_bytes made ≡ of_characters (take count (drop place (chars text.now)))) }
{
    text.chars().skip(place).take(count).collect(alloc)
}

/// A text of one character.
fn single(alloc: Global, character: char) -> Result<String, AllocError>
    ensures { IfOk result (λ made. string_bytes made ≡ encode_utf8 character) }
{
    let mut made = String::new(alloc);
    made.push(character)?;
    Ok(made)
}

/// Each character as a text.
pub(crate) fn each(alloc: Global, text: &str) -> Result<Vec<String>, AllocError>
    ensures { IfOk result (λ made. map string_bytes made.items ≡ map encode_utf8 (chars text.now)) }
{
    let characters = characters(alloc, text)?;
    let mut made = Vec::new(alloc);
    for character in &characters {
        made.push(single(alloc, *character)?)?;
    }
    Ok(made)
}
