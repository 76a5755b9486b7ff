//! What the methods of Kernel do that call none, and read and change no table.
ghost use Rattle.std.specs.Prelude.{◌≡◌, ◌≤◌, ◌==◌, false, length, List, Some, map, get_or, option_map, IfOk};
ghost use Rattle.std.specs.List.{All};
ghost use Rattle.zw_def.specs.Text.{Text};
ghost use Rattle.zw_def_world.specs.Ancestor.{class_of};
ghost use Rattle.zw_def_world.specs.Argument.{kernel_arguments};
ghost use Rattle.zw_def_world.specs.Equality.{same};
ghost use Rattle.zw_def_world.specs.Id.{Id, id_eq};
ghost use Rattle.zw_def_world.specs.KernelRows.{kernel_act};
ghost use Rattle.zw_def_world.specs.Row.{of_kernel, kernel_is_nil};
ghost use Rattle.zw_def_world.specs.Site.{Site, first, yes_or_no};
ghost use Rattle.zw_def_world.specs.Value.{Value as Told, as_module};
ghost use Rattle.zw_def_world.specs.World.{World, is_frozen};
ghost use Rattle.zw_heap.specs.Heap.{sizes_of};
ghost use Rattle.zw_heap.specs.Sound.{IsIn};
ghost use Rattle.zw_heap.specs.Telling.{Telling, Fits, Agrees, tell};
ghost use Rattle.zw_heap.specs.declared.mark.Sizes.{Sizes};
ghost use Rattle.zw_heap.specs.declared.value.Value.TheVariants.{Module as ModuleValue};
ghost use Rattle.zw_calls.specs.Argument.{arguments_seen};
ghost use Rattle.zw_calls.specs.Call.{call_of};
ghost use Rattle.zw_calls.specs.End.{Performs, AddsValues, MakesOnlyPaid};
ghost use Rattle.zw_calls.specs.KernelRow.{kernel_row_seen};
ghost use Rattle.zw_prims.specs.Marked.{kernel_marked};
ghost use Rattle.zw_prims.specs.Passes.{Pass};

use crate::shown::made;
use std::alloc::{AllocError, Global};
use zw_arrays::equality::same;
use zw_calls::KernelRow;
use zw_calls::argument::Arguments;
use zw_calls::end::{PrimEnd, yes_or_no};
use zw_calls::kind::Kind;
use zw_heap::{Heap, ModuleId, Value};
use zw_meter::Meter;
use zw_names::Names;
use zw_show::{inspect, to_text};

/// The class of a value.
fn class_of(value: Value, heap: &Heap) -> ModuleId
    requires held { IsIn (sizes_of heap.now) value }
    ensures told { (I : Telling) (names : List Text) (w : World) → Fits I names heap.now → Agrees I heap.now w
        → class_of w (tell I value) ≡ Some (I.module_id result.0) }
    ensures held { IsIn (sizes_of heap.now) (ModuleValue result) }
{
    heap.tells_core();
    heap.class_of(value)
}

/// Whether a value is nil.
fn is_nil(value: Value) -> bool
    ensures { (s : Site) (I : Telling) (args : List Told) → kernel_act s kernel_is_nil (tell I value) args ≡ yes_or_no result }
{
    matches!(value, Value::Nil)
}

/// Whether a value is frozen.
fn is_frozen(value: Value, heap: &Heap) -> bool
    requires held { IsIn (sizes_of heap.now) value }
    ensures { (I : Telling) (w : World) → Agrees I heap.now w → is_frozen w (tell I value) ≡ Some result }
{
    heap.is_frozen(value)
}

/// Whether values are the same, by the built-in `==`.
fn equal(one: Value, other: Value, heap: &Heap, meter: &mut Meter) -> PrimEnd
    requires one { IsIn (sizes_of heap.now) one }
    requires other { IsIn (sizes_of heap.now) other }
    ensures depth { meter.new.depth ≡ meter.old.depth }
    ensures performs { (names : List Text) → Performs (λ s I. same (tell I one) (tell I other))
        heap.now names meter.old.left meter.new.left result }
{
    match same(heap, one, other, meter) {
        Some(answer) => yes_or_no(answer),
        None => PrimEnd::Budget,
    }
}

/// Whether a value is of that class itself.
fn is_instance(value: Value, class: Value, heap: &Heap) -> bool
    requires held { IsIn (sizes_of heap.now) value }
    ensures { (I : Telling) (names : List Text) (w : World) (id : Id) → Fits I names heap.now → Agrees I heap.now w
        → as_module (tell I class) ≡ Some id → option_map (λ of. id_eq of id) (class_of w (tell I value)) ≡ Some result }
{
    match class {
        Value::Module(class) => class_of(value, heap).0 == class.0,
        _ => false,
    }
}

/// The first argument, or nil where there is none.
fn first(args: &[Value]) -> Value
    ensures told { (I : Telling) → first (map (tell I) args.now) ≡ tell I result }
    ensures held { (s : Sizes) → All (IsIn s) args.now → IsIn s result }
{
    match args.first() {
        Some(value) => *value,
        None => Value::Nil,
    }
}

/// The arguments that a method takes.
fn arguments(row: KernelRow) -> Arguments
    requires { kernel_marked row ≡ false }
    ensures { arguments_seen result ≡ kernel_arguments (kernel_row_seen row).1 }
{
    match row {
        KernelRow::Equal => Arguments::of(&[Kind::Any]),
        KernelRow::IsSame => Arguments::of(&[Kind::Any]),
        KernelRow::IsInstanceOf => Arguments::of(&[Kind::Module]),
        _ => Arguments::of(&[]),
    }
}

/// What a method does with arguments of the kinds that it takes.
fn act(
    alloc: Global,
    row: KernelRow,
    receiver: Value,
    args: &[Value],
    heap: &mut Heap,
    names: &Names,
    meter: &mut Meter,
) -> Result<PrimEnd, AllocError>
    requires here { kernel_marked row ≡ false }
    requires receiver { IsIn (sizes_of heap.old) receiver }
    requires arguments { All (IsIn (sizes_of heap.old)) args.now }
    requires passed { Pass heap.old names.now (kernel_arguments (kernel_row_seen row).1) receiver args.now }
    requires named { heap.old.names ≤ length names.now }
    ensures adds { AddsValues heap.old heap.new }
    ensures depth { meter.new.depth ≡ meter.old.depth }
    ensures paid { IfOk result (MakesOnlyPaid heap.old heap.new) }
    ensures performs { IfOk result
        (Performs (λ s I. kernel_act s (kernel_row_seen row).1 (tell I receiver) (map (tell I) args.now))
        heap.new names.now meter.old.left meter.new.left) }
{
    let other = first(args);
    match row {
        KernelRow::Class => Ok(PrimEnd::Value(Value::Module(class_of(receiver, heap)))),
        KernelRow::IsNil => Ok(yes_or_no(is_nil(receiver))),
        KernelRow::Equal => Ok(equal(receiver, other, heap, meter)),
        KernelRow::IsSame => Ok(equal(receiver, other, heap, meter)),
        KernelRow::IsInstanceOf => Ok(yes_or_no(is_instance(receiver, other, heap))),
        KernelRow::ToS => made(alloc, to_text(alloc, heap, names, receiver), heap, meter),
        KernelRow::Inspect => made(alloc, inspect(alloc, heap, names, receiver), heap, meter),
        KernelRow::IsFrozen => Ok(yes_or_no(is_frozen(receiver, heap))),
        _ => unreachable!(),
    }
}

/// A call of a method of Kernel. Its arguments are tested first.
pub fn apply(
    alloc: Global,
    row: KernelRow,
    receiver: Value,
    args: &[Value],
    heap: &mut Heap,
    names: &Names,
    meter: &mut Meter,
) -> Result<PrimEnd, AllocError>
    requires here { kernel_marked row ≡ false }
    requires receiver { IsIn (sizes_of heap.old) receiver }
    requires arguments { All (IsIn (sizes_of heap.old)) args.now }
    requires named { heap.old.names ≤ length names.now }
    ensures adds { AddsValues heap.old heap.new }
    ensures depth { meter.new.depth ≡ meter.old.depth }
    ensures paid { IfOk result (MakesOnlyPaid heap.old heap.new) }
    ensures performs { IfOk result
        (Performs (call_of (of_kernel (kernel_row_seen row).1) receiver args.now)
        heap.new names.now meter.old.left meter.new.left) }
{
    if let Some(raise) = arguments(row).fault(alloc, receiver, args, heap, names)? {
        return Ok(PrimEnd::Raise(raise));
    }
    act(alloc, row, receiver, args, heap, names, meter)
}
