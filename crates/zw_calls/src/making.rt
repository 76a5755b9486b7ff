//! Texts and arrays that methods make.
ghost use Rattle.std.specs.Prelude.{◌≡◌, ℕ, ◌<◌, ◌≤◌, ◌/◌, length, List, map, None, IfOk, OnOk, OnErr};
ghost use Rattle.std.specs.List.{All};
ghost use Rattle.zw_def.specs.Text.{Text};
ghost use Rattle.zw_def_world.specs.Making.{max_text, max_items, makes_text, makes_array, pays_text, pays_array};
ghost use Rattle.zw_heap.specs.Heap.{sizes_of, with_text, with_array};
ghost use Rattle.zw_heap.specs.Refusal.{text_refusal, array_refusal};
ghost use Rattle.zw_heap.specs.Sound.{IsIn};
ghost use Rattle.zw_def_world.specs.Value as told;
ghost use Rattle.zw_heap.specs.Telling.{Telling, Fits, tell};
ghost use Rattle.zw_calls.specs.End.{Performs, AddsValues, MakesOnlyPaid};
ghost use Rattle.zw_calls.specs.Flat.{IsFlat};

use crate::end::{PrimEnd, raise};
use std::alloc::{AllocError, Global};
use zw_fault::ErrorKind;
use zw_heap::{Heap, HeapFault, Value};
use zw_meter::Meter;

/// The most bytes of a text.
pub const MAX_TEXT: usize = 1_048_576;

/// The most items of an array.
pub const MAX_ITEMS: usize = 65_536;

/// How many bytes of a text are made in one step.
pub const BYTES_A_STEP: u64 = 64;

/// A text that is not too long.
pub fn new_text(text: &str, heap: &mut Heap) -> Result<Value, AllocError>
    requires { length text.now ≤ max_text }
    ensures adds { AddsValues heap.old heap.new }
    ensures held { IfOk result (IsIn (sizes_of heap.new)) }
    ensures flat { IfOk result IsFlat }
    ensures told { IfOk result (λ value. (I : Telling) (names : List Text) → Fits I names heap.new
        → tell I value ≡ told.text text.now) }
{
    heap.only_adds();
    match heap.make_text(text) {
        Ok(made) => Ok(Value::Text(made)),
        Err(HeapFault::Refused(_)) => unreachable!(),
        Err(HeapFault::Memory) => Err(AllocError),
    }
}

/// A text, which costs a step for each whole 64 bytes. These are paid before it is made. One that is too long costs
/// nothing.
pub fn text(
    alloc: Global,
    text: &str,
    heap: &mut Heap,
    meter: &mut Meter,
) -> Result<PrimEnd, AllocError>
    ensures adds { AddsValues heap.old heap.new }
    ensures depth { meter.new.depth ≡ meter.old.depth }
    ensures paid { IfOk result (MakesOnlyPaid heap.old heap.new) }
    ensures performs { (names : List Text) → IfOk result (Performs (λ s I. makes_text text.now)
        heap.new names meter.old.left meter.new.left) }
{
    if text.len() > MAX_TEXT {
        return raise(alloc, ErrorKind::RangeError, "text too long");
    }
    if !meter.tick(text.len() as u64 / BYTES_A_STEP) {
        return Ok(PrimEnd::Budget);
    }
    Ok(PrimEnd::Value(new_text(text, heap)?))
}

/// An array of values that are no arrays, where these are not too many.
pub fn new_array(items: &[Value], heap: &mut Heap) -> Result<Value, AllocError>
    requires held { All (IsIn (sizes_of heap.old)) items.now }
    requires flat { All IsFlat items.now }
    requires few { length items.now ≤ max_items }
    ensures adds { AddsValues heap.old heap.new }
    ensures held { IfOk result (IsIn (sizes_of heap.new)) }
    ensures told { IfOk result (λ value. (I : Telling) (names : List Text) → Fits I names heap.new
        → tell I value ≡ told.array (told.array_of (map (tell I) items.now))) }
{
    heap.only_adds();
    match heap.make_array(items) {
        Ok(made) => Ok(Value::Array(made)),
        Err(HeapFault::Refused(_)) => unreachable!(),
        Err(HeapFault::Memory) => Err(AllocError),
    }
}

/// An array of values that are no arrays, which costs a step for each. These are paid before it is made. One that is too
/// long costs nothing.
pub fn flat_array(
    alloc: Global,
    items: &[Value],
    heap: &mut Heap,
    meter: &mut Meter,
) -> Result<PrimEnd, AllocError>
    requires held { All (IsIn (sizes_of heap.old)) items.now }
    requires flat { All IsFlat items.now }
    ensures adds { AddsValues heap.old heap.new }
    ensures depth { meter.new.depth ≡ meter.old.depth }
    ensures paid { IfOk result (MakesOnlyPaid heap.old heap.new) }
    ensures performs { (names : List Text) → IfOk result (Performs (λ s I. makes_array (map (tell I) items.now))
        heap.new names meter.old.left meter.new.left) }
{
    if items.len() > MAX_ITEMS {
        return raise(alloc, ErrorKind::RangeError, "array too long");
    }
    if !meter.tick(items.len() as u64) {
        return Ok(PrimEnd::Budget);
    }
    Ok(PrimEnd::Value(new_array(items, heap)?))
}
