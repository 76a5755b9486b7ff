//! Sums of the items of arrays.
ghost use Rattle.std.specs.Prelude.{◌≡◌, ◌≤◌, ◌<◌, ℕ, List, length, map, pos, None, IfOk, IfSome};
ghost use Rattle.std.specs.List.{All};
ghost use Rattle.zw_def.specs.Text.{Text};
ghost use Rattle.zw_def_world.specs.Act.{Act};
ghost use Rattle.zw_def_world.specs.ArrayRows.{integers_tested, sum_of};
ghost use Rattle.zw_def_world.specs.Making.{makes_integer};
ghost use Rattle.zw_def_world.specs.Value.{items_in};
ghost use Rattle.zw_heap.specs.Heap.{sizes_of};
ghost use Rattle.zw_heap.specs.Sound.{IsIn};
ghost use Rattle.zw_heap.specs.Telling.{Telling, tell};
ghost use Rattle.zw_heap.specs.declared.mark.Sizes.{Sizes};
ghost use Rattle.zw_heap.specs.declared.value.Value.TheVariants.{Array as ArrayValue};
ghost use Rattle.zw_calls.specs.End.{Performs};
ghost use Rattle.zw_arrays.specs.Sum.{after_items};

use crate::items::items;
use std::alloc::{AllocError, Global};
use zw_calls::class::wrong_kind;
use zw_calls::end::{PrimEnd, integer};
use zw_calls::kind::Kind;
use zw_calls::reading::integer_in;
use zw_heap::{ArrayRef, Heap, Value};
use zw_names::Names;

/// The first item that is no integer.
fn first_other(items: &[Value]) -> Option<Value>
    ensures told { (I : Telling) (act : Act)
        → integers_tested (map (tell I) items.now) act ≡ after_items I result act }
    ensures held { (s : Sizes) → All (IsIn s) items.now → IfSome result (IsIn s) }
{
    for item in items {
        if !Kind::Integer.has(*item) {
            return Some(*item);
        }
    }
    None
}

/// The sum of the items that are integers. No slice has so many that it would not fit.
fn total(items: &[Value]) -> i128
    ensures { (I : Telling) → sum_of (pos 0) (map (tell I) items.now) ≡ result }
{
    let mut total: i128 = 0;
    for item in items {
        total += i128::from(integer_in(*item));
    }
    total
}

/// The sum of the items, where all are integers and it is in range.
pub(crate) fn sum(
    alloc: Global,
    array: ArrayRef,
    heap: &Heap,
    names: &Names,
) -> Result<PrimEnd, AllocError>
    requires array { array.0 < length heap.now.arrays }
    requires named { heap.now.names ≤ length names.now }
    ensures { (left : ℕ) → IfOk result (Performs
        (λ s I. integers_tested (items_in (tell I (ArrayValue array)))
        (makes_integer (sum_of (pos 0) (items_in (tell I (ArrayValue array))))))
        heap.now names.now left left) }
{
    let items = items(heap, array);
    if let Some(other) = first_other(items) {
        let fault = wrong_kind(alloc, Kind::Integer, other, heap, names)?;
        return Ok(PrimEnd::Raise(fault));
    }
    integer(alloc, i64::try_from(total(items)).ok())
}
