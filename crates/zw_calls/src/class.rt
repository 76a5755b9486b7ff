//! The classes of values, and the faults that tell them.
ghost use Rattle.std.specs.Prelude.{◌≡◌, ◌≤◌, codes, length, IfOk};
ghost use Rattle.zw_def_world.specs.Argument.{kind_text};
ghost use Rattle.zw_def_world.specs.Fault.{wrong_kind, no_comparison};
ghost use Rattle.zw_def_world.specs.Making.{too_long};
ghost use Rattle.zw_heap.specs.Heap.{sizes_of};
ghost use Rattle.zw_heap.specs.Sound.{IsIn};
ghost use Rattle.zw_heap.specs.Telling.{tell};
ghost use Rattle.zw_calls.specs.Fault.{fault_seen, AreSame};
ghost use Rattle.zw_calls.specs.Classes.{TellsClasses, NamesClass};
ghost use Rattle.zw_calls.specs.Kind.{kind_seen};

use crate::end::fault;
use crate::kind::Kind;
use std::alloc::{AllocError, Global};
use zw_fault::{ErrorKind, Raise};
use zw_heap::{Heap, Value};
use zw_names::Names;
use zw_show::{ShowFault, inspect};

/// The class of a value is the same in every world.
fn tells_classes(heap: &Heap)
    ensures { TellsClasses heap.now }
{
    heap.tells_core();
}

/// The path of the class of a value, or none where it is longer than a text may be.
fn class_name(
    alloc: Global,
    value: Value,
    heap: &Heap,
    names: &Names,
) -> Result<Option<String>, AllocError>
    requires held { IsIn (sizes_of heap.now) value }
    requires named { heap.now.names ≤ length names.now }
    ensures { IfOk result (NamesClass heap.now names.now value) }
{
    tells_classes(heap);
    let class = heap.class_of(value);
    match inspect(alloc, heap, names, Value::Module(class)) {
        Ok(path) => Ok(Some(path)),
        Err(ShowFault::Refused(_)) => Ok(None),
        Err(ShowFault::Memory) => Err(AllocError),
    }
}

/// The fault of a message that would be longer than a text may be.
pub fn too_long(alloc: Global) -> Result<Raise, AllocError>
    ensures { IfOk result (λ raise. fault_seen raise ≡ too_long) }
{
    fault(alloc, ErrorKind::RangeError, "text too long")
}

/// The fault of an argument of another kind than is taken.
pub fn wrong_kind(
    alloc: Global,
    kind: Kind,
    value: Value,
    heap: &Heap,
    names: &Names,
) -> Result<Raise, AllocError>
    requires held { IsIn (sizes_of heap.now) value }
    requires named { heap.now.names ≤ length names.now }
    ensures { IfOk result (λ raise. AreSame heap.now names.now
        (λ I. wrong_kind (tell I value) (kind_text (kind_seen kind))) (λ I. fault_seen raise)) }
{
    let expected = kind.name();
    let Some(class) = class_name(alloc, value, heap, names)? else {
        return too_long(alloc);
    };
    Ok(Raise {
        kind: ErrorKind::TypeError,
        message: format!(in alloc; "wrong argument type {class} (expected {expected})")?,
    })
}

/// The fault of a value that can't be compared with another one.
pub fn no_comparison(
    alloc: Global,
    one: Value,
    other: Value,
    heap: &Heap,
    names: &Names,
) -> Result<Raise, AllocError>
    requires one { IsIn (sizes_of heap.now) one }
    requires other { IsIn (sizes_of heap.now) other }
    requires named { heap.now.names ≤ length names.now }
    ensures { IfOk result (λ raise. AreSame heap.now names.now
        (λ I. no_comparison (tell I one) (tell I other)) (λ I. fault_seen raise)) }
{
    let first = class_name(alloc, one, heap, names)?;
    let second = class_name(alloc, other, heap, names)?;
    let Some(first) = first else {
        return too_long(alloc);
    };
    let Some(second) = second else {
        return too_long(alloc);
    };
    Ok(Raise {
        kind: ErrorKind::ArgumentError,
        message: format!(in alloc; "comparison of {first} with {second} failed")?,
    })
}
