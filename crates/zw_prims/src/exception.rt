//! What the methods of Exception do. `initialize` alone changes its receiver, which then keeps a text.
ghost use Rattle.std.specs.Prelude.{◌≡◌, ◌≤◌, ℕ, length, map, IfOk};
ghost use Rattle.std.specs.List.{All};
ghost use Rattle.zw_def_world.specs.Argument.{exception_arguments};
ghost use Rattle.zw_def_world.specs.Fault.{frozen_fault};
ghost use Rattle.zw_def_world.specs.ObjectRows.{exception_act};
ghost use Rattle.zw_def_world.specs.Row.{of_exception, exception_initialize};
ghost use Rattle.zw_heap.specs.Heap.{sizes_of};
ghost use Rattle.zw_heap.specs.Sound.{IsIn, Stays};
ghost use Rattle.zw_heap.specs.Telling.{OnlyAdds, tell};
ghost use Rattle.zw_heap.specs.declared.value.Value.TheVariants.{Object as ObjectValue};
ghost use Rattle.zw_calls.specs.Argument.{arguments_seen};
ghost use Rattle.zw_calls.specs.Call.{call_of};
ghost use Rattle.zw_calls.specs.End.{Performs, MakesOnlyPaid};
ghost use Rattle.zw_calls.specs.ExceptionRow.{exception_row_seen};
ghost use Rattle.zw_prims.specs.Does.{Does};
ghost use Rattle.zw_prims.specs.Receives.{IsException};

use crate::shown::made;
use std::alloc::{AllocError, Global};
use zw_calls::ExceptionRow;
use zw_calls::argument::Arguments;
use zw_calls::end::{PrimEnd, raise};
use zw_calls::kind::Kind;
use zw_calls::reading::text_at;
use zw_fault::{ErrorKind, Raise};
use zw_heap::{Heap, HeapFault, ObjRef, Value};
use zw_meter::Meter;
use zw_names::Names;
use zw_show::{ShowFault, inspect, to_text};

/// The fault of a change of a frozen value.
fn frozen_fault(
    alloc: Global,
    value: Value,
    heap: &Heap,
    names: &Names,
) -> Result<PrimEnd, AllocError>
    requires held { IsIn (sizes_of heap.now) value }
    requires named { heap.now.names ≤ length names.now }
    ensures { (left : ℕ) → IfOk result
        (Performs (λ s I. frozen_fault (tell I value)) heap.now names.now left left) }
{
    match inspect(alloc, heap, names, value) {
        Ok(text) => Ok(PrimEnd::Raise(Raise {
            kind: ErrorKind::FrozenError,
            message: format!(in alloc; "can't modify frozen {text}")?,
        })),
        Err(ShowFault::Refused(_)) => raise(alloc, ErrorKind::RangeError, "text too long"),
        Err(ShowFault::Memory) => Err(AllocError),
    }
}

/// The exception keeps the first argument, if there is one.
fn initialize(
    alloc: Global,
    object: ObjRef,
    args: &[Value],
    heap: &mut Heap,
    names: &Names,
) -> Result<PrimEnd, AllocError>
    requires receiver { IsIn (sizes_of heap.old) (ObjectValue object) }
    requires arguments { All (IsIn (sizes_of heap.old)) args.now }
    requires named { heap.old.names ≤ length names.now }
    ensures only_adds { OnlyAdds heap.old heap.new }
    ensures stays { Stays heap.old heap.new }
    ensures names { heap.new.names ≡ heap.old.names }
    ensures paid { IfOk result (MakesOnlyPaid heap.old heap.new) }
    ensures does { (left : ℕ) → IfOk result (Does
        (λ s I. exception_act s exception_initialize (tell I (ObjectValue object)) (map (tell I) args.now))
        heap.old heap.new names.now left left) }
{
    heap.only_adds();
    if heap.is_frozen(Value::Object(object)) {
        return frozen_fault(alloc, Value::Object(object), heap, names);
    }
    if args.is_empty() {
        return Ok(PrimEnd::Value(Value::Nil));
    }
    let text = String::from_str(alloc, text_at(args, 0, heap, names))?;
    match heap.set_message(object, text.as_str()) {
        Ok(()) => Ok(PrimEnd::Value(Value::Nil)),
        Err(HeapFault::Refused(_)) => unreachable!(),
        Err(HeapFault::Memory) => Err(AllocError),
    }
}

/// The arguments that a method takes.
fn arguments(row: ExceptionRow) -> Arguments
    ensures { arguments_seen result ≡ exception_arguments (exception_row_seen row).1 }
{
    match row {
        ExceptionRow::Initialize => Arguments::optional(&[Kind::String]),
        _ => Arguments::of(&[]),
    }
}

/// What a method does with arguments of the kinds that it takes.
fn act(
    alloc: Global,
    row: ExceptionRow,
    object: ObjRef,
    args: &[Value],
    heap: &mut Heap,
    names: &Names,
    meter: &mut Meter,
) -> Result<PrimEnd, AllocError>
    requires receiver { IsIn (sizes_of heap.old) (ObjectValue object) }
    requires exception { IsException heap.old (ObjectValue object) }
    requires arguments { All (IsIn (sizes_of heap.old)) args.now }
    requires named { heap.old.names ≤ length names.now }
    ensures only_adds { OnlyAdds heap.old heap.new }
    ensures stays { Stays heap.old heap.new }
    ensures names { heap.new.names ≡ heap.old.names }
    ensures depth { meter.new.depth ≡ meter.old.depth }
    ensures paid { IfOk result (MakesOnlyPaid heap.old heap.new) }
    ensures does { IfOk result (Does
        (λ s I. exception_act s (exception_row_seen row).1 (tell I (ObjectValue object)) (map (tell I) args.now))
        heap.old heap.new names.now meter.old.left meter.new.left) }
{
    heap.is_sound();
    heap.tells_exceptions();
    let receiver = Value::Object(object);
    match row {
        ExceptionRow::Initialize => initialize(alloc, object, args, heap, names),
        ExceptionRow::Message => made(alloc, to_text(alloc, heap, names, receiver), heap, meter),
        ExceptionRow::ToS => made(alloc, to_text(alloc, heap, names, receiver), heap, meter),
        ExceptionRow::Inspect => made(alloc, inspect(alloc, heap, names, receiver), heap, meter),
    }
}

/// A call of a method of Exception. Its arguments are tested first.
pub fn apply(
    alloc: Global,
    row: ExceptionRow,
    object: ObjRef,
    args: &[Value],
    heap: &mut Heap,
    names: &Names,
    meter: &mut Meter,
) -> Result<PrimEnd, AllocError>
    requires receiver { IsIn (sizes_of heap.old) (ObjectValue object) }
    requires exception { IsException heap.old (ObjectValue object) }
    requires arguments { All (IsIn (sizes_of heap.old)) args.now }
    requires named { heap.old.names ≤ length names.now }
    ensures only_adds { OnlyAdds heap.old heap.new }
    ensures stays { Stays heap.old heap.new }
    ensures names { heap.new.names ≡ heap.old.names }
    ensures depth { meter.new.depth ≡ meter.old.depth }
    ensures paid { IfOk result (MakesOnlyPaid heap.old heap.new) }
    ensures does { IfOk result
        (Does (call_of (of_exception (exception_row_seen row).1) (ObjectValue object) args.now)
        heap.old heap.new names.now meter.old.left meter.new.left) }
{
    if let Some(raise) = arguments(row).fault(alloc, Value::Object(object), args, heap, names)? {
        return Ok(PrimEnd::Raise(raise));
    }
    act(alloc, row, object, args, heap, names, meter)
}
