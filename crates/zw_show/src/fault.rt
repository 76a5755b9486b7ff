//! Why a text is not made.

use thiserror::Error;
use zw_base::Fault;

/// The text would have more bytes than a text may have.
#[derive(Clone, Copy, Debug, PartialEq, Eq, Error)]
pub enum TooLong {
    #[error("too long")]
    TooLong,
}

/// A text that is too long, or want of memory.
pub type ShowFault = Fault<TooLong>;
