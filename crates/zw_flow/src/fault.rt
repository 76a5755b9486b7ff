//! Why an evaluation does not end.
ghost use Rattle.std.specs.Prelude.{◌≡◌};
ghost use Rattle.zw_flow.specs.declared.fault.RunFault.TheVariants.{Memory, Write};

use std::alloc::{AllocError, AllocFailed};
use thiserror::Error;
use zw_io::WriteFault;

/// Why an evaluation did not come to its end. The session is spent then.
#[derive(Clone, Copy, Debug, PartialEq, Eq, Error)]
pub enum RunFault {
    /// A write of the sink failed.
    #[error("a write failed")]
    Write,
    /// There was no memory.
    #[error("out of memory")]
    Memory,
}

impl From<AllocError> for RunFault {
    ghost from_gives = { λ _ fault. fault ≡ Memory };

    fn from(_error: AllocError) -> RunFault {
        RunFault::Memory
    }
}

impl<T: Drop> From<AllocFailed<T>> for RunFault {
    ghost from_gives = { λ _ fault. fault ≡ Memory };

    fn from(_error: AllocFailed<T>) -> RunFault {
        RunFault::Memory
    }
}

impl From<WriteFault> for RunFault {
    ghost from_gives = { λ _ fault. fault ≡ Write };

    fn from(_error: WriteFault) -> RunFault {
        RunFault::Write
    }
}
