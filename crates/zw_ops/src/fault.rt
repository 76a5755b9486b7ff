//! The exceptions that nodes raise, by the values that they tell.
ghost use Rattle.std.specs.Prelude.{◌≡◌, ◌≤◌, length, IfOk};
ghost use Rattle.zw_calls.specs.Fault.{AreSame, fault_seen};
ghost use Rattle.zw_def_world.specs.Fault.{frozen_fault, no_method, no_module, no_super, no_variable, private_method};
ghost use Rattle.zw_fault.specs.ErrorKind.{error_kind_seen};
ghost use Rattle.zw_heap.specs.Heap.{sizes_of};
ghost use Rattle.zw_heap.specs.Sound.{IsIn};
ghost use Rattle.zw_heap.specs.Telling.{tell};
ghost use Rattle.zw_ops.specs.Fault.{KnowsText, tells_receiver};
ghost use Rattle.zw_show.specs.IsTold.{inspect_of, receiver_of};

use std::alloc::{AllocError, Global};
use zw_base::Fault;
use zw_calls::class::too_long;
use zw_fault::{ErrorKind, Raise};
use zw_heap::{Heap, Value};
use zw_names::Names;
use zw_show::{ShowFault, inspect, receiver_text};

/// Why a rule of a node gives no answer: an exception is to be raised, or there is no memory.
pub type OpFault = Fault<Raise>;

/// How a fault tells a receiver, or none where that is longer than a text may be.
fn receiver_told(
    alloc: Global,
    value: Value,
    heap: &Heap,
    names: &Names,
) -> Result<Option<String>, AllocError>
    requires held { IsIn (sizes_of heap.now) value }
    requires named { heap.now.names ≤ length names.now }
    ensures { IfOk result (KnowsText heap.now names.now (receiver_of value)) }
{
    match receiver_text(alloc, heap, names, value) {
        Ok(text) => Ok(Some(text)),
        Err(ShowFault::Refused(_)) => Ok(None),
        Err(ShowFault::Memory) => Err(AllocError),
    }
}

/// The inspect text of a value, or none where that is longer than a text may be.
fn inspected(
    alloc: Global,
    value: Value,
    heap: &Heap,
    names: &Names,
) -> Result<Option<String>, AllocError>
    requires held { IsIn (sizes_of heap.now) value }
    requires named { heap.now.names ≤ length names.now }
    ensures { IfOk result (KnowsText heap.now names.now (inspect_of value)) }
{
    match inspect(alloc, heap, names, value) {
        Ok(text) => Ok(Some(text)),
        Err(ShowFault::Refused(_)) => Ok(None),
        Err(ShowFault::Memory) => Err(AllocError),
    }
}

/// A fault that quotes a name and tells a receiver, with a text between them.
fn fault_for(
    alloc: Global,
    kind: ErrorKind,
    start: &str,
    name: &str,
    end: &str,
    value: Value,
    heap: &Heap,
    names: &Names,
) -> Result<Raise, AllocError>
    requires held { IsIn (sizes_of heap.now) value }
    requires named { heap.now.names ≤ length names.now }
    ensures { IfOk result (λ raise. AreSame heap.now names.now
        (λ I. tells_receiver (error_kind_seen kind) start.now name.now end.now (tell I value))
        (λ I. fault_seen raise)) }
{
    let Some(told) = receiver_told(alloc, value, heap, names)? else {
        return too_long(alloc);
    };
    Ok(Raise {
        kind,
        message: format!(in alloc; "{start}'{name}'{end}{told}")?,
    })
}

/// The fault of a name that is neither a variable nor a method.
pub(crate) fn no_variable(
    alloc: Global,
    value: Value,
    name: &str,
    heap: &Heap,
    names: &Names,
) -> Result<Raise, AllocError>
    requires held { IsIn (sizes_of heap.now) value }
    requires named { heap.now.names ≤ length names.now }
    ensures { IfOk result (λ raise. AreSame heap.now names.now
        (λ I. no_variable (tell I value) name.now) (λ I. fault_seen raise)) }
{
    fault_for(
        alloc,
        ErrorKind::NameError,
        "undefined local variable or method ",
        name,
        " for ",
        value,
        heap,
        names,
    )
}

/// The fault of a receiver that has no such method.
pub(crate) fn no_method(
    alloc: Global,
    value: Value,
    name: &str,
    heap: &Heap,
    names: &Names,
) -> Result<Raise, AllocError>
    requires held { IsIn (sizes_of heap.now) value }
    requires named { heap.now.names ≤ length names.now }
    ensures { IfOk result (λ raise. AreSame heap.now names.now
        (λ I. no_method (tell I value) name.now) (λ I. fault_seen raise)) }
{
    fault_for(
        alloc,
        ErrorKind::NoMethodError,
        "undefined method ",
        name,
        " for ",
        value,
        heap,
        names,
    )
}

/// The fault of `super` where no method of the name stands behind the running one.
pub(crate) fn no_super(
    alloc: Global,
    value: Value,
    name: &str,
    heap: &Heap,
    names: &Names,
) -> Result<Raise, AllocError>
    requires held { IsIn (sizes_of heap.now) value }
    requires named { heap.now.names ≤ length names.now }
    ensures { IfOk result (λ raise. AreSame heap.now names.now
        (λ I. no_super (tell I value) name.now) (λ I. fault_seen raise)) }
{
    fault_for(
        alloc,
        ErrorKind::NoMethodError,
        "super: no superclass method ",
        name,
        " for ",
        value,
        heap,
        names,
    )
}

/// The fault of a private method that is called with a receiver.
pub(crate) fn private_method(
    alloc: Global,
    value: Value,
    name: &str,
    heap: &Heap,
    names: &Names,
) -> Result<Raise, AllocError>
    requires held { IsIn (sizes_of heap.now) value }
    requires named { heap.now.names ≤ length names.now }
    ensures { IfOk result (λ raise. AreSame heap.now names.now
        (λ I. private_method (tell I value) name.now) (λ I. fault_seen raise)) }
{
    fault_for(
        alloc,
        ErrorKind::NoMethodError,
        "private method ",
        name,
        " called for ",
        value,
        heap,
        names,
    )
}

/// The fault of a value that is asked for a constant and is no class or module.
pub fn no_module(
    alloc: Global,
    value: Value,
    heap: &Heap,
    names: &Names,
) -> Result<Raise, AllocError>
    requires held { IsIn (sizes_of heap.now) value }
    requires named { heap.now.names ≤ length names.now }
    ensures { IfOk result (λ raise. AreSame heap.now names.now
        (λ I. no_module (tell I value)) (λ I. fault_seen raise)) }
{
    let Some(text) = inspected(alloc, value, heap, names)? else {
        return too_long(alloc);
    };
    Ok(Raise {
        kind: ErrorKind::TypeError,
        message: format!(in alloc; "{text} is not a class/module")?,
    })
}

/// The fault of a change of what is frozen.
pub fn frozen(alloc: Global, value: Value, heap: &Heap, names: &Names) -> Result<Raise, AllocError>
    requires held { IsIn (sizes_of heap.now) value }
    requires named { heap.now.names ≤ length names.now }
    ensures { IfOk result (λ raise. AreSame heap.now names.now
        (λ I. frozen_fault (tell I value)) (λ I. fault_seen raise)) }
{
    let Some(text) = inspected(alloc, value, heap, names)? else {
        return too_long(alloc);
    };
    Ok(Raise {
        kind: ErrorKind::FrozenError,
        message: format!(in alloc; "can't modify frozen {text}")?,
    })
}
