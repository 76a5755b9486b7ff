//! How a call of a primitive method ends.
ghost use Rattle.std.specs.Prelude.{◌≡◌, ℤ, IfOk};
ghost use Rattle.zw_def_world.specs.Making.{fails, makes_integer};
ghost use Rattle.zw_def_world.specs.Site.{yes_or_no};
ghost use Rattle.zw_fault.specs.ErrorKind.{error_kind_seen};
ghost use Rattle.zw_calls.specs.Fault.{fault_seen};
ghost use Rattle.zw_calls.specs.End.{EndsAtOnce};
ghost use Rattle.zw_calls.specs.Integer.{IsInRange};

use crate::prim_id::PrimId;
use std::alloc::{AllocError, Global};
use zw_fault::{ErrorKind, Raise};
use zw_heap::Value;

/// How a call of a primitive method ends.
#[derive(Debug, Drop)]
pub enum PrimEnd {
    /// With a value.
    Value(Value),
    /// With an exception that is to be raised.
    Raise(Raise),
    /// With fewer steps left than it costs.
    Budget,
    /// Not yet: it calls methods, loads, or reads or changes tables.
    Again(PrimId),
}

/// An exception of a class, with a message.
pub fn fault(alloc: Global, kind: ErrorKind, message: &str) -> Result<Raise, AllocError>
    ensures { IfOk result (λ raise. fault_seen raise ≡ fails (error_kind_seen kind) message.now) }
{
    Ok(Raise {
        kind,
        message: String::from_str(alloc, message)?,
    })
}

/// An exception that is to be raised.
pub fn raise(alloc: Global, kind: ErrorKind, message: &str) -> Result<PrimEnd, AllocError>
    ensures { IfOk result (EndsAtOnce (λ I. fails (error_kind_seen kind) message.now)) }
{
    Ok(PrimEnd::Raise(fault(alloc, kind, message)?))
}

/// True or false.
pub fn yes_or_no(answer: bool) -> PrimEnd
    ensures { EndsAtOnce (λ I. yes_or_no answer) result }
{
    if answer {
        PrimEnd::Value(Value::True)
    } else {
        PrimEnd::Value(Value::False)
    }
}

/// An integer, where one is in range.
pub fn integer(alloc: Global, number: Option<i64>) -> Result<PrimEnd, AllocError>
    ensures { (z : ℤ) → IsInRange number z → IfOk result (EndsAtOnce (λ I. makes_integer z)) }
{
    match number {
        Some(number) => Ok(PrimEnd::Value(Value::Int(number))),
        None => raise(alloc, ErrorKind::RangeError, "integer out of range"),
    }
}
