//! Arrays that methods of Array make.
ghost use Rattle.std.specs.Prelude.{◌≡◌, ◌<◌, ◌++◌, [], codes, List, map, take, drop, filter, reverse, length, IfOk};
ghost use Rattle.std.specs.List.{All};
ghost use Rattle.zw_def.specs.Text.{Text};
ghost use Rattle.zw_def_world.specs.ArrayRows.{is_some_value, uniques, without_items};
ghost use Rattle.zw_def_world.specs.IntegerRows.{counted};
ghost use Rattle.zw_def_world.specs.CoreClass.{ArgumentError};
ghost use Rattle.zw_def_world.specs.Making.{fails, makes_array};
ghost use Rattle.zw_def_world.specs.Value.{items_in};
ghost use Rattle.zw_heap.specs.Heap.{Held, sizes_of};
ghost use Rattle.zw_heap.specs.Sound.{IsIn};
ghost use Rattle.zw_heap.specs.Telling.{Telling, tell};
ghost use Rattle.zw_heap.specs.declared.value.Value.TheVariants.{Array as ArrayValue};
ghost use Rattle.zw_calls.specs.End.{EndsAtOnce, Performs, AddsValues, MakesOnlyPaid};
ghost use Rattle.zw_arrays.specs.Item.{IsItem};

use crate::array_kept::{keep_unless, uniques, without_items};
use crate::array_making::array_of;
use crate::items::{items, items_of};
use std::alloc::{AllocError, Global};
use zw_calls::end::{PrimEnd, raise};
use zw_fault::ErrorKind;
use zw_heap::{ArrayRef, Heap, Value};
use zw_meter::Meter;

/// The items of both arrays.
pub(crate) fn plus(
    alloc: Global,
    array: ArrayRef,
    other: Value,
    heap: &mut Heap,
    meter: &mut Meter,
) -> Result<PrimEnd, AllocError>
    requires array { array.0 < length heap.old.arrays }
    requires other { IsIn (sizes_of heap.old) other }
    ensures adds { AddsValues heap.old heap.new }
    ensures depth { meter.new.depth ≡ meter.old.depth }
    ensures paid { IfOk result (MakesOnlyPaid heap.old heap.new) }
    ensures performs { (names : List Text) → IfOk result
        (Performs (λ s I. makes_array (items_in (tell I (ArrayValue array)) ++ items_in (tell I other)))
        heap.new names meter.old.left meter.new.left) }
{
    let mut all = Vec::from_slice(alloc, items(heap, array))?;
    all.extend_from_slice(items_of(heap, other))?;
    array_of(alloc, all.as_slice(), heap, meter)
}

/// The items that are not among those of another array.
pub(crate) fn minus(
    alloc: Global,
    array: ArrayRef,
    other: Value,
    heap: &mut Heap,
    meter: &mut Meter,
) -> Result<PrimEnd, AllocError>
    requires array { array.0 < length heap.old.arrays }
    requires other { IsIn (sizes_of heap.old) other }
    ensures adds { AddsValues heap.old heap.new }
    ensures depth { meter.new.depth ≡ meter.old.depth }
    ensures paid { IfOk result (MakesOnlyPaid heap.old heap.new) }
    ensures performs { (names : List Text) → IfOk result
        (Performs (λ s I. without_items (items_in (tell I other)) [] (items_in (tell I (ArrayValue array))))
        heap.new names meter.old.left meter.new.left) }
{
    let others = items_of(heap, other);
    let Some(kept) = without_items(alloc, heap, items(heap, array), others, meter)? else {
        return Ok(PrimEnd::Budget);
    };
    array_of(alloc, kept.as_slice(), heap, meter)
}

/// The first of each items that are the same.
pub(crate) fn uniq(
    alloc: Global,
    array: ArrayRef,
    heap: &mut Heap,
    meter: &mut Meter,
) -> Result<PrimEnd, AllocError>
    requires array { array.0 < length heap.old.arrays }
    ensures adds { AddsValues heap.old heap.new }
    ensures depth { meter.new.depth ≡ meter.old.depth }
    ensures paid { IfOk result (MakesOnlyPaid heap.old heap.new) }
    ensures performs { (names : List Text) → IfOk result
        (Performs (λ s I. uniques [] (items_in (tell I (ArrayValue array))))
        heap.new names meter.old.left meter.new.left) }
{
    let Some(kept) = uniques(alloc, heap, items(heap, array), meter)? else {
        return Ok(PrimEnd::Budget);
    };
    array_of(alloc, kept.as_slice(), heap, meter)
}

/// The items from the last to the first.
pub(crate) fn reversed(
    alloc: Global,
    array: ArrayRef,
    heap: &mut Heap,
    meter: &mut Meter,
) -> Result<PrimEnd, AllocError>
    requires array { array.0 < length heap.old.arrays }
    ensures adds { AddsValues heap.old heap.new }
    ensures depth { meter.new.depth ≡ meter.old.depth }
    ensures paid { IfOk result (MakesOnlyPaid heap.old heap.new) }
    ensures performs { (names : List Text) → IfOk result
        (Performs (λ s I. makes_array (reverse (items_in (tell I (ArrayValue array)))))
        heap.new names meter.old.left meter.new.left) }
{
    let mut reversed = Vec::from_slice(alloc, items(heap, array))?;
    reversed.reverse();
    array_of(alloc, reversed.as_slice(), heap, meter)
}

/// The items but nil.
fn some_items(alloc: Global, items: &[Value]) -> Result<Vec<Value>, AllocError>
    ensures items { IfOk result (λ some. (h : Held) → All (IsItem h) items.now → All (IsItem h) some.items) }
    ensures told { IfOk result (λ some. (I : Telling)
        → map (tell I) some.items ≡ filter is_some_value (map (tell I) items.now)) }
{
    let mut some = Vec::new(alloc);
    for item in items {
        keep_unless(matches!(*item, Value::Nil), *item, &mut some)?;
    }
    Ok(some)
}

/// The items but nil, in an array.
pub(crate) fn compact(
    alloc: Global,
    array: ArrayRef,
    heap: &mut Heap,
    meter: &mut Meter,
) -> Result<PrimEnd, AllocError>
    requires array { array.0 < length heap.old.arrays }
    ensures adds { AddsValues heap.old heap.new }
    ensures depth { meter.new.depth ≡ meter.old.depth }
    ensures paid { IfOk result (MakesOnlyPaid heap.old heap.new) }
    ensures performs { (names : List Text) → IfOk result
        (Performs (λ s I. makes_array (filter is_some_value (items_in (tell I (ArrayValue array)))))
        heap.new names meter.old.left meter.new.left) }
{
    let some = some_items(alloc, items(heap, array))?;
    array_of(alloc, some.as_slice(), heap, meter)
}

/// The fault of a count below zero.
fn negative_count(alloc: Global) -> Result<PrimEnd, AllocError>
    ensures { IfOk result (EndsAtOnce (λ I. fails ArgumentError (codes "argument must be non-negative"))) }
{
    raise(
        alloc,
        ErrorKind::ArgumentError,
        "argument must be non-negative",
    )
}

/// At most so many items, from the front.
pub(crate) fn take(
    alloc: Global,
    array: ArrayRef,
    count: i64,
    heap: &mut Heap,
    meter: &mut Meter,
) -> Result<PrimEnd, AllocError>
    requires array { array.0 < length heap.old.arrays }
    ensures adds { AddsValues heap.old heap.new }
    ensures depth { meter.new.depth ≡ meter.old.depth }
    ensures paid { IfOk result (MakesOnlyPaid heap.old heap.new) }
    ensures performs { (names : List Text) → IfOk result
        (Performs (λ s I. counted (λ n. makes_array (take n (items_in (tell I (ArrayValue array))))) count)
        heap.new names meter.old.left meter.new.left) }
{
    let Ok(count) = usize::try_from(count) else {
        return negative_count(alloc);
    };
    let items = items(heap, array);
    let taken = Vec::from_slice(alloc, &items[..count.min(items.len())])?;
    array_of(alloc, taken.as_slice(), heap, meter)
}

/// The items behind so many.
pub(crate) fn drop(
    alloc: Global,
    array: ArrayRef,
    count: i64,
    heap: &mut Heap,
    meter: &mut Meter,
) -> Result<PrimEnd, AllocError>
    requires array { array.0 < length heap.old.arrays }
    ensures adds { AddsValues heap.old heap.new }
    ensures depth { meter.new.depth ≡ meter.old.depth }
    ensures paid { IfOk result (MakesOnlyPaid heap.old heap.new) }
    ensures performs { (names : List Text) → IfOk result
        (Performs (λ s I. counted (λ n. makes_array (drop n (items_in (tell I (ArrayValue array))))) count)
        heap.new names meter.old.left meter.new.left) }
{
    let Ok(count) = usize::try_from(count) else {
        return negative_count(alloc);
    };
    let items = items(heap, array);
    let rest = Vec::from_slice(alloc, &items[count.min(items.len())..])?;
    array_of(alloc, rest.as_slice(), heap, meter)
}
