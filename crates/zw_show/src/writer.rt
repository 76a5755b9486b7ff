//! Texts that are written piece by piece, up to a limit.

ghost use Rattle.std.specs.Prelude.{◌≡◌, ◌≤◌, [], length, string_bytes};

use std::alloc::Global;

/// The most bytes of a text.
pub(crate) const MAX_TEXT: usize = 1_048_576;

/// A text so far. What would make it longer than `most` bytes is refused before it is written.
#[derive(Drop)]
pub(crate) struct Writer {
    pub(crate) alloc: Global,
    pub(crate) most: usize,
    pub(crate) text: String,
    ghost fits: { length (string_bytes text) ≤ most },
}

impl Writer {
    /// No text yet.
    pub(crate) fn new(alloc: Global, most: usize) -> Writer
        ensures empty { string_bytes result.text ≡ [] }
        ensures limit { result.most ≡ most }
    {
        Writer {
            alloc,
            most,
            text: String::new(alloc),
        }
    }
}
