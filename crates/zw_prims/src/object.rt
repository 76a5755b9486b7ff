//! What the method of Object does.
ghost use Rattle.std.specs.Prelude.{◌≡◌, ◌≤◌, ℕ, length, IfOk};
ghost use Rattle.std.specs.List.{All};
ghost use Rattle.zw_def_world.specs.Row.{of_object, object_initialize};
ghost use Rattle.zw_heap.specs.Heap.{sizes_of};
ghost use Rattle.zw_heap.specs.Sound.{IsIn};
ghost use Rattle.zw_calls.specs.Call.{call_of};
ghost use Rattle.zw_calls.specs.End.{Performs};

use std::alloc::{AllocError, Global};
use zw_calls::argument::Arguments;
use zw_calls::end::PrimEnd;
use zw_heap::{Heap, Value};
use zw_names::Names;

/// A call of `initialize` of Object, which does nothing. Its arguments are tested first.
pub fn apply(
    alloc: Global,
    receiver: Value,
    args: &[Value],
    heap: &Heap,
    names: &Names,
) -> Result<PrimEnd, AllocError>
    requires receiver { IsIn (sizes_of heap.now) receiver }
    requires arguments { All (IsIn (sizes_of heap.now)) args.now }
    requires named { heap.now.names ≤ length names.now }
    ensures { (left : ℕ) → IfOk result
        (Performs (call_of (of_object object_initialize) receiver args.now) heap.now names.now left left) }
{
    let arguments = Arguments::of(&[]);
    if let Some(raise) = arguments.fault(alloc, receiver, args, heap, names)? {
        return Ok(PrimEnd::Raise(raise));
    }
    Ok(PrimEnd::Value(Value::Nil))
}
