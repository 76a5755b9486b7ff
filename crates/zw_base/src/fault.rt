//! Errors of calls that take memory.
ghost use Rattle.std.specs.Prelude.{◌≡◌};
ghost use Rattle.zw_base.specs.declared.fault.Fault.TheVariants.{Memory};

use std::alloc::{AllocError, AllocFailed};
use std::fmt::Display;
use thiserror::Error;

/// Why a call that takes memory gave nothing: it refused, for a reason of its own, or there was no memory.
#[derive(Clone, Copy, Debug, PartialEq, Eq, Drop, Error)]
#[error_bound(E: Display)]
pub enum Fault<E> {
    /// The call's own reason.
    #[error("{0}")]
    Refused(E),
    /// There was no memory. The call says nothing else.
    #[error("out of memory")]
    Memory,
}

impl<E> From<AllocError> for Fault<E> {
    ghost from_gives = { λ _ fault. fault ≡ Memory };

    fn from(_error: AllocError) -> Fault<E> {
        Fault::Memory
    }
}

impl<E, T: Drop> From<AllocFailed<T>> for Fault<E> {
    ghost from_gives = { λ _ fault. fault ≡ Memory };

    fn from(_error: AllocFailed<T>) -> Fault<E> {
        Fault::Memory
    }
}
