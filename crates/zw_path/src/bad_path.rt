//! What is wrong with a text that tells no path.
use thiserror::Error;
use zw_base::Fault;

/// Why a text tells no path. A leading `/` is told first, and then the first component with which something is wrong.
#[derive(Clone, Copy, Debug, PartialEq, Eq, Error)]
pub enum BadPath {
    /// The text or a component of it is empty.
    #[error("empty component")]
    Empty,
    /// A component is `.` or `..`.
    #[error("component of dots")]
    Dots,
    /// The text begins with `/`.
    #[error("absolute path")]
    Absolute,
    /// A component has a character below U+0020 or U+007F, or more than 255 bytes.
    #[error("bad component")]
    BadChar,
}

/// Why there is no path: the text tells none, or there was no memory.
pub type PathFault = Fault<BadPath>;
