//! What methods take out of a text: characters at a place, and pieces between separators.
ghost use Rattle.std.specs.Prelude.{List, length, map, IfOk};
ghost use Rattle.std.specs.Str.{chars};
ghost use Rattle.zw_def.specs.Text.{Text};
ghost use Rattle.zw_def_world.specs.StringRows.{character_at, characters_at, part_at, place_in, splits};
ghost use Rattle.zw_def_world.specs.Act.{gives};
ghost use Rattle.zw_def_world.specs.Value.{nil};
ghost use Rattle.zw_heap.specs.Heap.{Held};
ghost use Rattle.zw_heap.specs.Telling.{tell};
ghost use Rattle.zw_strings.specs.Work.{Leaves};

use crate::characters::{part, place_in, size};
use crate::pieces::split;
use crate::work::Work;
use std::alloc::{AllocError, Global};
use zw_calls::end::{PrimEnd, raise};
use zw_calls::reading::integer_in;
use zw_fault::ErrorKind;
use zw_heap::Value;

/// Nil.
fn nothing() -> Work
    ensures { (h : Held) (names : List Text) → Leaves (λ s I. gives nil) h names result }
{
    Work::Ended(PrimEnd::Value(Value::Nil))
}

/// The character at a place from the start or from the end, if there is one.
fn character_at(alloc: Global, text: &str, place: i64) -> Result<Work, AllocError>
    ensures { (h : Held) (names : List Text) → IfOk result
        (Leaves (λ s I. character_at (place_in place (length (chars text.now))) (chars text.now)) h names) }
{
    let size = size(text);
    let Some(place) = place_in(place, size) else {
        return Ok(nothing());
    };
    if place >= size {
        return Ok(nothing());
    }
    Ok(Work::Text(part(alloc, text, place, 1)?))
}

/// At most so many characters from a place on, where that is in the text or at its end.
fn characters_at(alloc: Global, text: &str, place: i64, count: i64) -> Result<Work, AllocError>
    ensures { (h : Held) (names : List Text) → IfOk result
        (Leaves (λ s I. characters_at (place_in place (length (chars text.now))) count (chars text.now)) h names) }
{
    let Ok(count) = usize::try_from(count) else {
        return Ok(nothing());
    };
    let size = size(text);
    let Some(place) = place_in(place, size) else {
        return Ok(nothing());
    };
    if place > size {
        return Ok(nothing());
    }
    Ok(Work::Text(part(alloc, text, place, count)?))
}

/// The character at the place that the first argument tells, or as many characters from there on as the second one tells.
pub(crate) fn part_at(alloc: Global, text: &str, args: &[Value]) -> Result<Work, AllocError>
    ensures { (h : Held) (names : List Text) → IfOk result
        (Leaves (λ s I. part_at (chars text.now) (map (tell I) args.now)) h names) }
{
    match args {
        [] => Ok(nothing()),
        [place] => character_at(alloc, text, integer_in(*place)),
        [place, count, ..] => { characters_at(alloc, text, integer_in(*place), integer_in(*count)) }
    }
}

/// The pieces between the places of a separator, or the fault of an empty one.
pub(crate) fn split_by(alloc: Global, text: &str, separator: &str) -> Result<Work, AllocError>
    ensures { (h : Held) (names : List Text) → IfOk result (Leaves (λ s I. splits text.now separator.now) h names) }
{
    if separator.is_empty() {
        return Ok(Work::Ended(raise(alloc, ErrorKind::ArgumentError, "empty separator")?));
    }
    Ok(Work::Texts(split(alloc, text, separator)?))
}
