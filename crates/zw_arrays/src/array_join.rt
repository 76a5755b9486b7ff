//! Texts of the items of arrays, joined.
ghost use Rattle.std.specs.Prelude.{◌≡◌, ◌≤◌, ◌<◌, length, get_or, List, map, ◌++◌, IfOk, OnOk, string_bytes};
ghost use Rattle.std.specs.List.{All};
ghost use Rattle.zw_base.specs.Fault.{IfRefused};
ghost use Rattle.zw_def_world.specs.Act.{reading};
ghost use Rattle.zw_def_world.specs.ArrayRows.{join_texts};
ghost use Rattle.zw_def_world.specs.Making.{max_text, makes_text};
ghost use Rattle.zw_def_world.specs.Value.{nil, items_in, text_in};
ghost use Rattle.zw_heap.specs.Heap.{sizes_of};
ghost use Rattle.zw_heap.specs.Sound.{IsIn};
ghost use Rattle.zw_heap.specs.Telling.{tell};
ghost use Rattle.zw_heap.specs.declared.value.Value.TheVariants.{Array as ArrayValue};
ghost use Rattle.zw_calls.specs.End.{Performs, AddsValues, MakesOnlyPaid};
ghost use Rattle.zw_arrays.specs.Joined.{joined_of, separated, IsEverTooLong};
ghost use Rattle.zw_show.specs.IsTold.{IsTold};

use crate::items::items;
use std::alloc::{AllocError, Global};
use zw_calls::end::{PrimEnd, raise};
use zw_calls::making::text;
use zw_calls::reading::text_at;
use zw_fault::ErrorKind;
use zw_heap::{ArrayRef, Heap, Value};
use zw_meter::Meter;
use zw_names::Names;
use zw_show::{ShowFault, TooLong, to_text};

/// The most bytes of a text.
const MAX_TEXT: usize = 1_048_576;

/// Writes what stands before the text of the item at a place.
fn push_separator(joined: &mut String, place: usize, separator: &str) -> Result<(), AllocError>
    ensures { OnOk result (string_bytes joined.new ≡ string_bytes joined.old ++ separated separator.now place) }
{
    if place == 0 {
        return Ok(());
    }
    joined.push_str(separator)
}

/// The built-in texts of the items, with the separator between them. What would be longer than a text may be is refused
/// as soon as it is.
fn joined(
    alloc: Global,
    heap: &Heap,
    names: &Names,
    items: &[Value],
    separator: &str,
) -> Result<String, ShowFault>
    requires items { All (IsIn (sizes_of heap.now)) items.now }
    requires named { heap.now.names ≤ length names.now }
    ensures told { IfOk result (λ made.
        IsTold heap.now names.now (joined_of separator.now items.now) (string_bytes made)) }
    ensures fits { IfOk result (λ made. length (string_bytes made) ≤ max_text) }
    ensures refused { IfRefused result (λ refusal.
        IsEverTooLong heap.now names.now (joined_of separator.now items.now)) }
{
    heap.is_sound();
    heap.tells_exceptions();
    let mut joined = String::new(alloc);
    for (index, item) in items.iter().enumerate() {
        let text = to_text(alloc, heap, names, *item)?;
        push_separator(&mut joined, index, separator)?;
        joined.push_str(text.as_str())?;
        if joined.len() > MAX_TEXT {
            return Err(ShowFault::Refused(TooLong::TooLong));
        }
    }
    Ok(joined)
}

/// The built-in texts of the items of an array, with the first argument between them.
pub(crate) fn join(
    alloc: Global,
    array: ArrayRef,
    args: &[Value],
    heap: &mut Heap,
    names: &Names,
    meter: &mut Meter,
) -> Result<PrimEnd, AllocError>
    requires array { array.0 < length heap.old.arrays }
    requires arguments { All (IsIn (sizes_of heap.old)) args.now }
    requires named { heap.old.names ≤ length names.now }
    ensures adds { AddsValues heap.old heap.new }
    ensures depth { meter.new.depth ≡ meter.old.depth }
    ensures paid { IfOk result (MakesOnlyPaid heap.old heap.new) }
    ensures performs { IfOk result (Performs
        (λ s I. reading (λ w. join_texts w (text_in (get_or (map (tell I) args.now) 0 nil))
        (items_in (tell I (ArrayValue array)))) makes_text)
        heap.new names.now meter.old.left meter.new.left) }
{
    let separator = text_at(args, 0, heap, names);
    match joined(alloc, heap, names, items(heap, array), separator) {
        Ok(joined) => text(alloc, joined.as_str(), heap, meter),
        Err(ShowFault::Refused(_)) => raise(alloc, ErrorKind::RangeError, "text too long"),
        Err(ShowFault::Memory) => Err(AllocError),
    }
}
