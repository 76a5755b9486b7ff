//! What methods of Array read of an array.
ghost use Rattle.std.specs.Prelude.{◌≡◌, ◌<◌, ◌==◌, ℕ, List, length, map, pos, get_or, Option, None, Some, IfOk};
ghost use Rattle.std.specs.List.{All};
ghost use Rattle.zw_def.specs.Text.{Text};
ghost use Rattle.zw_def_world.specs.Act.{gives};
ghost use Rattle.zw_def_world.specs.ArrayRows.{item_at, last_value, index_from};
ghost use Rattle.zw_def_world.specs.Equality.{among};
ghost use Rattle.zw_def_world.specs.Site.{first, yes_or_no};
ghost use Rattle.zw_def_world.specs.Value as told;
ghost use Rattle.zw_def_world.specs.Value.{items_in};
ghost use Rattle.zw_heap.specs.Heap.{sizes_of};
ghost use Rattle.zw_heap.specs.Sound.{IsIn};
ghost use Rattle.zw_heap.specs.Telling.{Telling, Fits, tell};
ghost use Rattle.zw_heap.specs.declared.mark.Sizes.{Sizes};
ghost use Rattle.zw_heap.specs.declared.value.Value.TheVariants.{Array as ArrayValue};
ghost use Rattle.zw_arrays.specs.Answer.{Answers, place_seen};
ghost use Rattle.zw_calls.specs.End.{EndsAtOnce, Performs};

use crate::equality::{is_among, same};
use crate::items::items;
use std::alloc::AllocError;
use zw_calls::end::{PrimEnd, yes_or_no};
use zw_heap::{ArrayRef, Heap, Value};
use zw_meter::Meter;

/// A number of items. No memory holds more of them than an integer can tell.
fn count(number: usize) -> Result<PrimEnd, AllocError>
    ensures { IfOk result (EndsAtOnce (λ I. gives (told.int (pos number)))) }
{
    match i64::try_from(number) {
        Ok(number) => Ok(PrimEnd::Value(Value::Int(number))),
        Err(_) => Err(AllocError),
    }
}

/// The value at a place, or nil where there are fewer.
pub(crate) fn held_at(items: &[Value], place: usize) -> Value
    ensures told { (I : Telling) → get_or (map (tell I) items.now) place told.nil ≡ tell I result }
    ensures held { (s : Sizes) → All (IsIn s) items.now → IsIn s result }
{
    match items.get(place) {
        Some(item) => *item,
        None => Value::Nil,
    }
}

/// The item at a place, which is counted from the end where it is negative, or nil outside.
fn item_at(items: &[Value], place: i64) -> Value
    ensures told { (I : Telling) → item_at place (map (tell I) items.now) ≡ tell I result }
    ensures held { (s : Sizes) → All (IsIn s) items.now → IsIn s result }
{
    if place >= 0 {
        return held_at(items, place as usize);
    }
    let back = place.unsigned_abs() as usize;
    if back > items.len() {
        return Value::Nil;
    }
    held_at(items, items.len() - back)
}

/// The last item, or nil where there is none.
fn last_of(items: &[Value]) -> Value
    ensures told { (I : Telling) → last_value told.nil (map (tell I) items.now) ≡ tell I result }
    ensures held { (s : Sizes) → All (IsIn s) items.now → IsIn s result }
{
    held_at(items, items.len().saturating_sub(1))
}

/// The place of the first item that is the same as a value, if there is one. Each item that is looked at costs a step.
/// None with fewer steps left than that costs.
fn position(heap: &Heap, value: Value, items: &[Value], meter: &mut Meter) -> Option<Option<usize>>
    requires value { IsIn (sizes_of heap.now) value }
    requires items { All (IsIn (sizes_of heap.now)) items.now }
    ensures depth { meter.new.depth ≡ meter.old.depth }
    ensures told { Answers heap.now (λ I. index_from 0 (tell I value) (map (tell I) items.now))
        meter.old.left meter.new.left (λ I. place_seen result) }
{
    for (index, item) in items.iter().enumerate() {
        if !meter.tick(1) {
            return None;
        }
        let found = same(heap, *item, value, meter)?;
        if found {
            return Some(Some(index));
        }
    }
    Some(None)
}

/// How many items an array has.
pub(crate) fn size(heap: &Heap, array: ArrayRef) -> Result<PrimEnd, AllocError>
    requires { array.0 < length heap.now.arrays }
    ensures { (names : List Text) (left : ℕ) → IfOk result (Performs
        (λ s I. gives (told.int (pos (length (items_in (tell I (ArrayValue array))))))) heap.now names left left) }
{
    count(items(heap, array).len())
}

/// Whether an array has no item.
pub(crate) fn is_empty(heap: &Heap, array: ArrayRef) -> PrimEnd
    requires { array.0 < length heap.now.arrays }
    ensures { (names : List Text) (left : ℕ) → Performs
        (λ s I. yes_or_no (length (items_in (tell I (ArrayValue array))) == 0)) heap.now names left left result }
{
    yes_or_no(items(heap, array).is_empty())
}

/// The item of an array at a place, which is counted from the end where it is negative, or nil outside.
pub(crate) fn at(heap: &Heap, array: ArrayRef, place: i64) -> Value
    requires { array.0 < length heap.now.arrays }
    ensures told { (I : Telling) (names : List Text) → Fits I names heap.now
        → item_at place (items_in (tell I (ArrayValue array))) ≡ tell I result }
    ensures held { IsIn (sizes_of heap.now) result }
{
    item_at(items(heap, array), place)
}

/// The first item of an array, or nil where there is none.
pub(crate) fn first(heap: &Heap, array: ArrayRef) -> Value
    requires { array.0 < length heap.now.arrays }
    ensures told { (I : Telling) (names : List Text) → Fits I names heap.now
        → first (items_in (tell I (ArrayValue array))) ≡ tell I result }
    ensures held { IsIn (sizes_of heap.now) result }
{
    held_at(items(heap, array), 0)
}

/// The last item of an array, or nil where there is none.
pub(crate) fn last(heap: &Heap, array: ArrayRef) -> Value
    requires { array.0 < length heap.now.arrays }
    ensures told { (I : Telling) (names : List Text) → Fits I names heap.now
        → last_value told.nil (items_in (tell I (ArrayValue array))) ≡ tell I result }
    ensures held { IsIn (sizes_of heap.now) result }
{
    last_of(items(heap, array))
}

/// Whether a value is among the items of an array.
pub(crate) fn includes(heap: &Heap, array: ArrayRef, value: Value, meter: &mut Meter) -> PrimEnd
    requires array { array.0 < length heap.now.arrays }
    requires value { IsIn (sizes_of heap.now) value }
    ensures depth { meter.new.depth ≡ meter.old.depth }
    ensures performs { (names : List Text) → Performs
        (λ s I. among (tell I value) (items_in (tell I (ArrayValue array))))
        heap.now names meter.old.left meter.new.left result }
{
    match is_among(heap, value, items(heap, array), meter) {
        Some(found) => yes_or_no(found),
        None => PrimEnd::Budget,
    }
}

/// The place of the first item of an array that is the same as a value, or nil.
pub(crate) fn index(
    heap: &Heap,
    array: ArrayRef,
    value: Value,
    meter: &mut Meter,
) -> Result<PrimEnd, AllocError>
    requires array { array.0 < length heap.now.arrays }
    requires value { IsIn (sizes_of heap.now) value }
    ensures depth { meter.new.depth ≡ meter.old.depth }
    ensures performs { (names : List Text) → IfOk result (Performs
        (λ s I. index_from 0 (tell I value) (items_in (tell I (ArrayValue array))))
        heap.now names meter.old.left meter.new.left) }
{
    match position(heap, value, items(heap, array), meter) {
        Some(Some(place)) => count(place),
        Some(None) => Ok(PrimEnd::Value(Value::Nil)),
        None => Ok(PrimEnd::Budget),
    }
}
