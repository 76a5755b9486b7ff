//! What `name`, `to_s` and `inspect` of Module do: each of them gives the path.
ghost use Rattle.std.specs.Prelude.{◌≡◌, ◌≤◌, length, IfOk};
ghost use Rattle.std.specs.List.{All};
ghost use Rattle.zw_def_world.specs.Row.{of_module, module_name};
ghost use Rattle.zw_heap.specs.Heap.{sizes_of};
ghost use Rattle.zw_heap.specs.Sound.{IsIn};
ghost use Rattle.zw_heap.specs.declared.value.Value.TheVariants.{Module as ModuleValue};
ghost use Rattle.zw_calls.specs.Call.{call_of};
ghost use Rattle.zw_calls.specs.End.{Performs, AddsValues, MakesOnlyPaid};

use crate::shown::made;
use std::alloc::{AllocError, Global};
use zw_calls::argument::Arguments;
use zw_calls::end::PrimEnd;
use zw_heap::{Heap, ModuleId, Value};
use zw_meter::Meter;
use zw_names::Names;
use zw_show::inspect;

/// A call of one of them. Its arguments are tested first.
pub fn apply(
    alloc: Global,
    of: ModuleId,
    args: &[Value],
    heap: &mut Heap,
    names: &Names,
    meter: &mut Meter,
) -> Result<PrimEnd, AllocError>
    requires receiver { IsIn (sizes_of heap.old) (ModuleValue of) }
    requires arguments { All (IsIn (sizes_of heap.old)) args.now }
    requires named { heap.old.names ≤ length names.now }
    ensures adds { AddsValues heap.old heap.new }
    ensures depth { meter.new.depth ≡ meter.old.depth }
    ensures paid { IfOk result (MakesOnlyPaid heap.old heap.new) }
    ensures performs { IfOk result
        (Performs (call_of (of_module module_name) (ModuleValue of) args.now)
        heap.new names.now meter.old.left meter.new.left) }
{
    let arguments = Arguments::of(&[]);
    if let Some(raise) = arguments.fault(alloc, Value::Module(of), args, heap, names)? {
        return Ok(PrimEnd::Raise(raise));
    }
    let path = inspect(alloc, heap, names, Value::Module(of));
    made(alloc, path, heap, meter)
}
