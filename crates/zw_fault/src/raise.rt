//! Exceptions that are to be raised.
ghost use Rattle.std.specs.Prelude.{◌≡◌, IfOk};
ghost use Rattle.zw_fault.specs.Exception.{exception_of};
ghost use Rattle.zw_fault.specs.LoadFault.{IsNamed, load_fault_seen};
ghost use Rattle.zw_fault.specs.Raise.{raise_seen};

use crate::error_kind::ErrorKind;
use crate::load_fault::LoadFault;
use std::alloc::{AllocError, Global};
use zw_names::Names;

/// An exception that is to be raised. Its message may be longer than a text of the language.
#[derive(Debug, Drop, PartialEq)]
pub struct Raise {
    pub kind: ErrorKind,
    pub message: String,
}

/// The exception that tells a fault of the loader. The names of its constant path are told by the table.
pub fn raise_of(alloc: Global, fault: &LoadFault, names: &Names) -> Result<Raise, AllocError>
    requires { IsNamed names.now fault.now }
    ensures { IfOk result (λ raise. raise_seen raise ≡ exception_of (load_fault_seen names.now fault.now)) }
{
    Ok(Raise {
        kind: fault.kind(),
        message: fault.message(alloc, names)?,
    })
}
