//! Why an edit is refused.
use thiserror::Error;
use zw_base::Fault;

/// Why an edit of the staged tree is refused. The first that holds, in this order, is the one that is told.
#[derive(Clone, Copy, Debug, PartialEq, Eq, Drop, Error)]
pub enum TreeFault {
    /// The path is one that no edit may name.
    #[error("fixed")]
    Fixed,
    /// The last component does not end in `.rb`, or a component begins with a dot.
    #[error("not a Ruby path")]
    NotRuby,
    /// A directory above the path is a file, or the path is a directory. Of `put` alone.
    #[error("in the way")]
    InTheWay,
    /// No file has the path. Of `del` alone.
    #[error("missing")]
    Missing,
    /// A limit would be passed. Of `put` alone.
    #[error("too large")]
    TooLarge,
}

/// Why an edit was not made: it is refused, or there was no memory.
pub type EditFault = Fault<TreeFault>;
