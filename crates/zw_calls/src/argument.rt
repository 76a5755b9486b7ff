//! The arguments that methods take.
ghost use Rattle.std.specs.Prelude.{◌≤◌, length};

use crate::kind::Kind;

/// The kinds of the arguments, and how many of them are required: the others are optional. Where a method compares, an
/// argument of another kind is told as a comparison that failed.
#[derive(Clone, Copy, Debug)]
pub struct Arguments {
    pub least: usize,
    pub kinds: &'static [Kind],
    pub compares: bool,
    ghost few: { least ≤ length kinds.now },
}
