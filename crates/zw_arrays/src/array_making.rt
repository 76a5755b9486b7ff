//! Arrays that are made of items of arrays.
ghost use Rattle.std.specs.Prelude.{◌≡◌, ◌<◌, ◌≤◌, length, List, map, IfOk};
ghost use Rattle.std.specs.List.{All};
ghost use Rattle.zw_def.specs.Text.{Text};
ghost use Rattle.zw_def_world.specs.Making.{max_items, makes_array};
ghost use Rattle.zw_def_world.specs.Value as told;
ghost use Rattle.zw_heap.specs.Heap.{sizes_of};
ghost use Rattle.zw_heap.specs.Sound.{IsIn};
ghost use Rattle.zw_heap.specs.Telling.{Telling, Fits, tell};
ghost use Rattle.zw_calls.specs.End.{Performs, AddsValues, MakesOnlyPaid};
ghost use Rattle.zw_arrays.specs.Item.{IsItem};

use std::alloc::{AllocError, Global};
use zw_calls::end::{PrimEnd, raise};
use zw_fault::ErrorKind;
use zw_heap::{Heap, HeapFault, Value};
use zw_meter::Meter;

/// The most items of an array.
const MAX_ITEMS: usize = 65_536;

/// An array of items of arrays, where these are not too many.
fn new_array(items: &[Value], heap: &mut Heap) -> Result<Value, AllocError>
    requires items { All (IsItem heap.old) items.now }
    requires few { length items.now ≤ max_items }
    ensures adds { AddsValues heap.old heap.new }
    ensures held { IfOk result (IsIn (sizes_of heap.new)) }
    ensures told { IfOk result (λ value. (I : Telling) (names : List Text) → Fits I names heap.new
        → tell I value ≡ told.array (told.array_of (map (tell I) items.now))) }
{
    heap.only_adds();
    match heap.make_array(items) {
        Ok(made) => Ok(Value::Array(made)),
        Err(HeapFault::Refused(_)) => unreachable!(),
        Err(HeapFault::Memory) => Err(AllocError),
    }
}

/// An array of items of arrays, which costs a step for each. These are paid before it is made. One that is too long costs
/// nothing; it can't be nested too deep.
pub(crate) fn array_of(
    alloc: Global,
    items: &[Value],
    heap: &mut Heap,
    meter: &mut Meter,
) -> Result<PrimEnd, AllocError>
    requires items { All (IsItem heap.old) items.now }
    ensures adds { AddsValues heap.old heap.new }
    ensures depth { meter.new.depth ≡ meter.old.depth }
    ensures paid { IfOk result (MakesOnlyPaid heap.old heap.new) }
    ensures performs { (names : List Text) → IfOk result (Performs (λ s I. makes_array (map (tell I) items.now))
        heap.new names meter.old.left meter.new.left) }
{
    heap.is_sound();
    if items.len() > MAX_ITEMS {
        return raise(alloc, ErrorKind::RangeError, "array too long");
    }
    if !meter.tick(items.len() as u64) {
        return Ok(PrimEnd::Budget);
    }
    Ok(PrimEnd::Value(new_array(items, heap)?))
}
