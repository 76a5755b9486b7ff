//! Texts that are repeated, and texts with spaces before or behind them.
ghost use Rattle.std.specs.Prelude.{◌≡◌, ◌+◌, nat_lt, codes, List, length, string_bytes, IfOk};
ghost use Rattle.zw_def.specs.Text.{Text};
ghost use Rattle.zw_def_world.specs.CoreClass.{ArgumentError};
ghost use Rattle.zw_def_world.specs.Making.{fails, max_text, too_long};
ghost use Rattle.zw_def_world.specs.StringRows.{padding, repeated, times, justified_left, justified_right};
ghost use Rattle.zw_heap.specs.Heap.{Held};
ghost use Rattle.zw_strings.specs.Work.{Leaves};

use crate::characters::size;
use crate::work::Work;
use std::alloc::{AllocError, Global};
use zw_calls::end::raise;
use zw_calls::making::MAX_TEXT;
use zw_fault::ErrorKind;

/// A text so many times.
#[tactic(auto, using(crate::proofs::TextLemmas::repeated_more))]
fn repeated(alloc: Global, count: usize, text: &str) -> Result<String, AllocError>
    ensures { IfOk result (λ made. string_bytes made ≡ repeated count text.now) }
{
    let mut made = String::new(alloc);
    for _turn in 0..count {
        made.push_str(text)?;
    }
    Ok(made)
}

/// The fault of a text that would be too long.
fn too_long(alloc: Global) -> Result<Work, AllocError>
    ensures { (h : Held) (names : List Text) → IfOk result (Leaves (λ s I. too_long) h names) }
{
    Ok(Work::Ended(raise(alloc, ErrorKind::RangeError, "text too long")?))
}

/// The fault of a count below zero.
fn negative(alloc: Global) -> Result<Work, AllocError>
    ensures { (h : Held) (names : List Text)
        → IfOk result (Leaves (λ s I. fails ArgumentError (codes "argument must be non-negative")) h names) }
{
    Ok(Work::Ended(raise(
        alloc,
        ErrorKind::ArgumentError,
        "argument must be non-negative",
    )?))
}

/// A text so many times. The empty text is the same however often it stands.
pub(crate) fn times(alloc: Global, text: &str, number: i64) -> Result<Work, AllocError>
    ensures { (h : Held) (names : List Text) → IfOk result (Leaves (λ s I. times number text.now) h names) }
{
    let Ok(count) = usize::try_from(number) else {
        return negative(alloc);
    };
    if text.is_empty() {
        return Ok(Work::Text(String::new(alloc)));
    }
    if count > MAX_TEXT / text.len() {
        return too_long(alloc);
    }
    Ok(Work::Text(repeated(alloc, count, text)?))
}

/// How many spaces a text wants to have so many characters.
fn padding(text: &str, width: i64) -> usize
    ensures { result ≡ padding width text.now }
{
    match usize::try_from(width) {
        Ok(width) => width.saturating_sub(size(text)),
        Err(_) => 0,
    }
}

/// Whether a text with so many bytes more is too long.
fn is_too_long(text: &str, more: usize) -> bool
    ensures { result ≡ nat_lt max_text (length text.now + more) }
{
    more > MAX_TEXT || text.len() > MAX_TEXT - more
}

/// A text with spaces behind it up to so many characters.
pub(crate) fn left_justified(alloc: Global, text: &str, width: i64) -> Result<Work, AllocError>
    ensures { (h : Held) (names : List Text)
        → IfOk result (Leaves (λ s I. justified_left (padding width text.now) text.now) h names) }
{
    let more = padding(text, width);
    if is_too_long(text, more) {
        return too_long(alloc);
    }
    let mut made = String::from_str(alloc, text)?;
    made.push_str(repeated(alloc, more, " ")?.as_str())?;
    Ok(Work::Text(made))
}

/// A text with spaces before it up to so many characters.
pub(crate) fn right_justified(alloc: Global, text: &str, width: i64) -> Result<Work, AllocError>
    ensures { (h : Held) (names : List Text)
        → IfOk result (Leaves (λ s I. justified_right (padding width text.now) text.now) h names) }
{
    let more = padding(text, width);
    if is_too_long(text, more) {
        return too_long(alloc);
    }
    let mut made = repeated(alloc, more, " ")?;
    made.push_str(text)?;
    Ok(Work::Text(made))
}
