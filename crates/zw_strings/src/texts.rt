//! Arrays of texts that methods make.
ghost use Rattle.std.specs.Prelude.{◌≡◌, List, [], length, map, string_bytes, IfOk};
ghost use Rattle.std.specs.List.{All};
ghost use Rattle.zw_def.specs.Text.{Text};
ghost use Rattle.zw_def_world.specs.StringRows.{makes_pieces};
ghost use Rattle.zw_def_world.specs.Value as told;
ghost use Rattle.zw_heap.specs.Heap.{sizes_of};
ghost use Rattle.zw_heap.specs.Sound.{IsIn};
ghost use Rattle.zw_heap.specs.Telling.{Telling, Fits, tell};
ghost use Rattle.zw_calls.specs.End.{Performs, AddsValues, MakesOnlyPaid};
ghost use Rattle.zw_calls.specs.Flat.{IsFlat};
ghost use Rattle.zw_strings.specs.Pieces.{AreShort, PaysTexts};

use std::alloc::{AllocError, Global};
use zw_calls::end::{PrimEnd, raise};
use zw_calls::making::{BYTES_A_STEP, MAX_ITEMS, MAX_TEXT, new_array, new_text};
use zw_fault::ErrorKind;
use zw_heap::{Heap, Value};
use zw_meter::Meter;

/// Pays texts in their order, each a step for each whole 64 bytes. The end of the call, where one is too long or can't
/// be paid.
fn pay_texts(
    alloc: Global,
    texts: &[String],
    meter: &mut Meter,
) -> Result<Option<PrimEnd>, AllocError>
    ensures depth { meter.new.depth ≡ meter.old.depth }
    ensures pays { IfOk result (PaysTexts (map string_bytes texts.now) meter.old.left meter.new.left) }
{
    for text in texts {
        if text.len() > MAX_TEXT {
            return Ok(Some(raise(alloc, ErrorKind::RangeError, "text too long")?));
        }
        if !meter.tick(text.len() as u64 / BYTES_A_STEP) {
            return Ok(Some(PrimEnd::Budget));
        }
    }
    Ok(None)
}

/// Makes texts that are not too long.
fn new_texts(alloc: Global, texts: &[String], heap: &mut Heap) -> Result<Vec<Value>, AllocError>
    requires few { AreShort (map string_bytes texts.now) }
    ensures adds { AddsValues heap.old heap.new }
    ensures count { IfOk result (λ made. length made.items ≡ length texts.now) }
    ensures held { IfOk result (λ made. All (IsIn (sizes_of heap.new)) made.items) }
    ensures flat { IfOk result (λ made. All IsFlat made.items) }
    ensures told { IfOk result (λ made. (I : Telling) (names : List Text) → Fits I names heap.new
        → map (tell I) made.items ≡ map told.text (map string_bytes texts.now)) }
{
    let mut made = Vec::new(alloc);
    for text in texts {
        made.push(new_text(text.as_str(), heap)?)?;
    }
    Ok(made)
}

/// An array of texts, which costs a step for each, and for each whole 64 bytes of each text. These are paid before
/// anything is made: the texts in their order, and then the array.
pub(crate) fn array_of_texts(
    alloc: Global,
    texts: &[String],
    heap: &mut Heap,
    meter: &mut Meter,
) -> Result<PrimEnd, AllocError>
    ensures adds { AddsValues heap.old heap.new }
    ensures depth { meter.new.depth ≡ meter.old.depth }
    ensures paid { IfOk result (MakesOnlyPaid heap.old heap.new) }
    ensures performs { (names : List Text) → IfOk result (Performs (λ s I. makes_pieces [] (map string_bytes texts.now))
        heap.new names meter.old.left meter.new.left) }
{
    if let Some(end) = pay_texts(alloc, texts, meter)? {
        return Ok(end);
    }
    if texts.len() > MAX_ITEMS {
        return raise(alloc, ErrorKind::RangeError, "array too long");
    }
    if !meter.tick(texts.len() as u64) {
        return Ok(PrimEnd::Budget);
    }
    let items = new_texts(alloc, texts, heap)?;
    Ok(PrimEnd::Value(new_array(&items, heap)?))
}
