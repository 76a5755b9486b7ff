//! What the methods of NilClass do.
ghost use Rattle.std.specs.Prelude.{◌≡◌, ◌≤◌, length, List, map, IfOk};
ghost use Rattle.std.specs.List.{All};
ghost use Rattle.zw_def.specs.Text.{Text};
ghost use Rattle.zw_def_world.specs.IntegerRows.{nil_act};
ghost use Rattle.zw_def_world.specs.Row.{of_nil};
ghost use Rattle.zw_def_world.specs.Value as told;
ghost use Rattle.zw_heap.specs.Heap.{sizes_of};
ghost use Rattle.zw_heap.specs.Sound.{IsIn};
ghost use Rattle.zw_heap.specs.Telling.{tell};
ghost use Rattle.zw_heap.specs.declared.value.Value.TheVariants.{Nil as NilValue};
ghost use Rattle.zw_calls.specs.Call.{call_of};
ghost use Rattle.zw_calls.specs.End.{Performs, AddsValues, MakesOnlyPaid};
ghost use Rattle.zw_calls.specs.NilRow.{nil_row_seen};

use std::alloc::{AllocError, Global};
use zw_calls::NilRow;
use zw_calls::argument::Arguments;
use zw_calls::end::PrimEnd;
use zw_calls::making::flat_array;
use zw_heap::{Heap, Value};
use zw_meter::Meter;
use zw_names::Names;

/// What a method does with arguments of the kinds that it takes.
fn act(
    alloc: Global,
    row: NilRow,
    args: &[Value],
    heap: &mut Heap,
    meter: &mut Meter,
) -> Result<PrimEnd, AllocError>
    ensures adds { AddsValues heap.old heap.new }
    ensures depth { meter.new.depth ≡ meter.old.depth }
    ensures paid { IfOk result (MakesOnlyPaid heap.old heap.new) }
    ensures performs { (names : List Text)
        → IfOk result (Performs (λ s I. nil_act s (nil_row_seen row).1 told.nil (map (tell I) args.now))
        heap.new names meter.old.left meter.new.left) }
{
    match row {
        NilRow::ToI => Ok(PrimEnd::Value(Value::Int(0))),
        NilRow::ToA => flat_array(alloc, &[], heap, meter),
    }
}

/// A call of a method of NilClass. Its arguments are tested first.
pub fn apply(
    alloc: Global,
    row: NilRow,
    args: &[Value],
    heap: &mut Heap,
    names: &Names,
    meter: &mut Meter,
) -> Result<PrimEnd, AllocError>
    requires arguments { All (IsIn (sizes_of heap.old)) args.now }
    requires named { heap.old.names ≤ length names.now }
    ensures adds { AddsValues heap.old heap.new }
    ensures depth { meter.new.depth ≡ meter.old.depth }
    ensures paid { IfOk result (MakesOnlyPaid heap.old heap.new) }
    ensures performs { IfOk result
        (Performs (call_of (of_nil (nil_row_seen row).1) NilValue args.now)
        heap.new names.now meter.old.left meter.new.left) }
{
    let arguments = Arguments::of(&[]);
    if let Some(raise) = arguments.fault(alloc, Value::Nil, args, heap, names)? {
        return Ok(PrimEnd::Raise(raise));
    }
    act(alloc, row, args, heap, meter)
}
