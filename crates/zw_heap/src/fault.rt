//! Why a heap does not make or change something.

use thiserror::Error;
use zw_base::Fault;

/// Why a heap does not make or change something.
#[derive(Clone, Copy, Debug, PartialEq, Eq, Error)]
pub enum HeapRefusal {
    /// The record is frozen, or the value has none.
    #[error("frozen")]
    Frozen,
    /// The text has more than 1,048,576 bytes, or the array more than 65,536 items.
    #[error("too long")]
    TooLong,
    /// More than 100 arrays would stand in one another.
    #[error("nested too deep")]
    TooDeep,
}

/// A heap's refusal, or want of memory.
pub type HeapFault = Fault<HeapRefusal>;
