//! What the methods of Array do.
ghost use Rattle.std.specs.Prelude.{◌≡◌, ◌≤◌, ◌<◌, length, List, map, IfOk};
ghost use Rattle.std.specs.List.{All};
ghost use Rattle.zw_def_world.specs.Argument.{array_arguments};
ghost use Rattle.zw_def_world.specs.ArrayRows.{array_act};
ghost use Rattle.zw_def_world.specs.Row.{of_array};
ghost use Rattle.zw_heap.specs.Heap.{sizes_of};
ghost use Rattle.zw_heap.specs.Sound.{IsIn};
ghost use Rattle.zw_heap.specs.Telling.{tell};
ghost use Rattle.zw_heap.specs.declared.value.Value.TheVariants.{Array as ArrayValue};
ghost use Rattle.zw_calls.specs.Argument.{arguments_seen};
ghost use Rattle.zw_calls.specs.ArrayRow.{array_row_seen};
ghost use Rattle.zw_calls.specs.Call.{call_of};
ghost use Rattle.zw_calls.specs.End.{Performs, AddsValues, MakesOnlyPaid};

use crate::array_join::join;
use crate::array_parts::{compact, drop, minus, plus, reversed, take, uniq};
use crate::array_read::{at, first, held_at, includes, index, is_empty, last, size};
use crate::array_sum::sum;
use std::alloc::{AllocError, Global};
use zw_calls::ArrayRow;
use zw_calls::argument::Arguments;
use zw_calls::end::PrimEnd;
use zw_calls::kind::Kind;
use zw_calls::reading::integer_at;
use zw_heap::{ArrayRef, Heap, Value};
use zw_meter::Meter;
use zw_names::Names;

/// The arguments that a method takes.
fn arguments(row: ArrayRow) -> Arguments
    ensures { arguments_seen result ≡ array_arguments (array_row_seen row).1 }
{
    match row {
        ArrayRow::Plus => Arguments::of(&[Kind::Array]),
        ArrayRow::Minus => Arguments::of(&[Kind::Array]),
        ArrayRow::At => Arguments::of(&[Kind::Integer]),
        ArrayRow::Includes => Arguments::of(&[Kind::Any]),
        ArrayRow::Index => Arguments::of(&[Kind::Any]),
        ArrayRow::Join => Arguments::optional(&[Kind::String]),
        ArrayRow::Take => Arguments::of(&[Kind::Integer]),
        ArrayRow::Drop => Arguments::of(&[Kind::Integer]),
        _ => Arguments::of(&[]),
    }
}

/// What a method does with arguments of the kinds that it takes.
fn act(
    alloc: Global,
    row: ArrayRow,
    array: ArrayRef,
    args: &[Value],
    heap: &mut Heap,
    names: &Names,
    meter: &mut Meter,
) -> Result<PrimEnd, AllocError>
    requires receiver { array.0 < length heap.old.arrays }
    requires arguments { All (IsIn (sizes_of heap.old)) args.now }
    requires named { heap.old.names ≤ length names.now }
    ensures adds { AddsValues heap.old heap.new }
    ensures depth { meter.new.depth ≡ meter.old.depth }
    ensures paid { IfOk result (MakesOnlyPaid heap.old heap.new) }
    ensures performs { IfOk result
        (Performs (λ s I. array_act s (array_row_seen row).1 (tell I (ArrayValue array)) (map (tell I) args.now))
        heap.new names.now meter.old.left meter.new.left) }
{
    let other = held_at(args, 0);
    let number = integer_at(args, 0);
    match row {
        ArrayRow::Plus => plus(alloc, array, other, heap, meter),
        ArrayRow::Minus => minus(alloc, array, other, heap, meter),
        ArrayRow::At => Ok(PrimEnd::Value(at(heap, array, number))),
        ArrayRow::Size => size(heap, array),
        ArrayRow::Length => size(heap, array),
        ArrayRow::IsEmpty => Ok(is_empty(heap, array)),
        ArrayRow::First => Ok(PrimEnd::Value(first(heap, array))),
        ArrayRow::Last => Ok(PrimEnd::Value(last(heap, array))),
        ArrayRow::Includes => Ok(includes(heap, array, other, meter)),
        ArrayRow::Index => index(heap, array, other, meter),
        ArrayRow::Reverse => reversed(alloc, array, heap, meter),
        ArrayRow::Join => join(alloc, array, args, heap, names, meter),
        ArrayRow::Take => take(alloc, array, number, heap, meter),
        ArrayRow::Drop => drop(alloc, array, number, heap, meter),
        ArrayRow::Compact => compact(alloc, array, heap, meter),
        ArrayRow::Uniq => uniq(alloc, array, heap, meter),
        ArrayRow::Sum => sum(alloc, array, heap, names),
    }
}

/// A call of a method of Array. Its arguments are tested first.
pub fn apply(
    alloc: Global,
    row: ArrayRow,
    array: ArrayRef,
    args: &[Value],
    heap: &mut Heap,
    names: &Names,
    meter: &mut Meter,
) -> Result<PrimEnd, AllocError>
    requires receiver { array.0 < length heap.old.arrays }
    requires arguments { All (IsIn (sizes_of heap.old)) args.now }
    requires named { heap.old.names ≤ length names.now }
    ensures adds { AddsValues heap.old heap.new }
    ensures depth { meter.new.depth ≡ meter.old.depth }
    ensures paid { IfOk result (MakesOnlyPaid heap.old heap.new) }
    ensures performs { IfOk result
        (Performs (call_of (of_array (array_row_seen row).1) (ArrayValue array) args.now)
        heap.new names.now meter.old.left meter.new.left) }
{
    if let Some(raise) = arguments(row).fault(alloc, Value::Array(array), args, heap, names)? {
        return Ok(PrimEnd::Raise(raise));
    }
    act(alloc, row, array, args, heap, names, meter)
}
