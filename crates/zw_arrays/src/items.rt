//! The items of arrays.
ghost use Rattle.std.specs.Prelude.{◌≡◌, ◌<◌, List, length, map};
ghost use Rattle.std.specs.List.{All};
ghost use Rattle.zw_def.specs.Text.{Text};
ghost use Rattle.zw_def_world.specs.Value.{items_in};
ghost use Rattle.zw_heap.specs.Heap.{sizes_of};
ghost use Rattle.zw_heap.specs.Sound.{IsIn};
ghost use Rattle.zw_heap.specs.Telling.{Telling, Fits, tell};
ghost use Rattle.zw_heap.specs.declared.value.Value.TheVariants.{Array as ArrayValue};
ghost use Rattle.zw_arrays.specs.Item.{IsItem};

use zw_heap::{ArrayRef, Heap, Value};

/// The items of an array.
pub(crate) fn items(heap: &Heap, array: ArrayRef) -> &[Value]
    requires { array.0 < length heap.now.arrays }
    ensures told { (I : Telling) (names : List Text) → Fits I names heap.now
        → items_in (tell I (ArrayValue array)) ≡ map (tell I) result.now }
    ensures held { All (IsItem heap.now) result.now }
{
    heap.is_sound();
    heap.items(array)
}

/// The items of an array, or none of another value.
pub(crate) fn items_of(heap: &Heap, value: Value) -> &[Value]
    requires { IsIn (sizes_of heap.now) value }
    ensures told { (I : Telling) (names : List Text) → Fits I names heap.now
        → items_in (tell I value) ≡ map (tell I) result.now }
    ensures held { All (IsItem heap.now) result.now }
{
    match value {
        Value::Array(array) => items(heap, array),
        _ => &[],
    }
}
