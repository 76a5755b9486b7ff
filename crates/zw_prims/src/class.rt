//! What `superclass` of Class does.
ghost use Rattle.std.specs.Prelude.{◌≡◌, ◌≤◌, ℕ, length, List, map, IfOk};
ghost use Rattle.std.specs.List.{All};
ghost use Rattle.zw_def.specs.Text.{Text};
ghost use Rattle.zw_def_world.specs.ObjectRows.{class_act};
ghost use Rattle.zw_def_world.specs.Row.{of_class, class_superclass};
ghost use Rattle.zw_heap.specs.Heap.{sizes_of};
ghost use Rattle.zw_heap.specs.Sound.{IsIn};
ghost use Rattle.zw_heap.specs.Telling.{tell};
ghost use Rattle.zw_heap.specs.declared.value.Value.{Value as Item};
ghost use Rattle.zw_heap.specs.declared.value.Value.TheVariants.{Module as ModuleValue};
ghost use Rattle.zw_calls.specs.Call.{call_of};
ghost use Rattle.zw_calls.specs.End.{Performs};

use std::alloc::{AllocError, Global};
use zw_calls::argument::Arguments;
use zw_calls::end::PrimEnd;
use zw_heap::{Heap, ModuleId, Value};
use zw_names::Names;

/// The superclass of a class, or nil for `Object`.
fn superclass(class: ModuleId, heap: &Heap) -> PrimEnd
    requires class { IsIn (sizes_of heap.now) (ModuleValue class) }
    ensures { (names : List Text) (left : ℕ) (args : List Item) → Performs
        (λ s I. class_act s class_superclass (tell I (ModuleValue class)) (map (tell I) args))
        heap.now names left left result }
{
    heap.is_sound();
    match heap.superclass(class) {
        Some(superclass) => PrimEnd::Value(Value::Module(superclass)),
        None => PrimEnd::Value(Value::Nil),
    }
}

/// A call of `superclass` of Class. Its arguments are tested first.
pub fn apply(
    alloc: Global,
    class: ModuleId,
    args: &[Value],
    heap: &Heap,
    names: &Names,
) -> Result<PrimEnd, AllocError>
    requires receiver { IsIn (sizes_of heap.now) (ModuleValue class) }
    requires arguments { All (IsIn (sizes_of heap.now)) args.now }
    requires named { heap.now.names ≤ length names.now }
    ensures { (left : ℕ) → IfOk result
        (Performs (call_of (of_class class_superclass) (ModuleValue class) args.now) heap.now names.now left left) }
{
    let arguments = Arguments::of(&[]);
    if let Some(raise) = arguments.fault(alloc, Value::Module(class), args, heap, names)? {
        return Ok(PrimEnd::Raise(raise));
    }
    Ok(superclass(class, heap))
}
