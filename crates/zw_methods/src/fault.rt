//! Why a module does not change.

use thiserror::Error;
use zw_base::Fault;

/// Why a module does not change.
#[derive(Clone, Copy, Debug, PartialEq, Eq, Error)]
pub enum MethodRefusal {
    /// The module is frozen.
    #[error("frozen")]
    Frozen,
    /// What is included leads back to the module.
    #[error("cyclic include detected")]
    Cyclic,
}

/// A refusal, or want of memory.
pub type MethodFault = Fault<MethodRefusal>;
