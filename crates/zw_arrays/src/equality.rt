//! The built-in `==`, in which each comparison of two items costs a step.
ghost use Rattle.std.specs.Prelude.{◌≡◌, ◌<◌, List, length, map};
ghost use Rattle.std.specs.List.{All};
ghost use Rattle.zw_def.specs.Text.{Text};
ghost use Rattle.zw_def_world.specs.Equality.{is_same, same, same_items, among};
ghost use Rattle.zw_def_world.specs.Value as told;
ghost use Rattle.zw_heap.specs.Heap.{sizes_of};
ghost use Rattle.zw_heap.specs.Sound.{IsIn};
ghost use Rattle.zw_heap.specs.Telling.{Telling, Fits, tell};
ghost use Rattle.zw_heap.specs.declared.value.Value.TheVariants.{Array as ArrayValue, Module as ModuleValue, Object as ObjectValue, Text as TextValue};
ghost use Rattle.zw_arrays.specs.Answer.{Answers, answer_seen};

use zw_heap::{ArrayRef, Heap, ModuleId, ObjRef, TextRef, Value};
use zw_meter::Meter;

/// Whether a value is a text of the same bytes.
fn is_text(heap: &Heap, text: TextRef, other: Value) -> bool
    requires text { text.0 < length heap.now.texts }
    requires other { IsIn (sizes_of heap.now) other }
    ensures { (I : Telling) (names : List Text) → Fits I names heap.now
        → is_same (tell I (TextValue text)) (tell I other) ≡ result }
{
    let Value::Text(other) = other else {
        return false;
    };
    heap.text(text) == heap.text(other)
}

/// Whether a value is that object.
fn is_object(object: ObjRef, other: Value) -> bool
    ensures { (I : Telling) → is_same (tell I (ObjectValue object)) (tell I other) ≡ result }
{
    let Value::Object(other) = other else {
        return false;
    };
    object.0 == other.0
}

/// Whether a value is that class or module.
fn is_module(of: ModuleId, other: Value) -> bool
    ensures { (I : Telling) → is_same (tell I (ModuleValue of)) (tell I other) ≡ result }
{
    let Value::Module(other) = other else {
        return false;
    };
    of.0 == other.0
}

/// Whether values that are not both arrays are the same: modules and objects by identity, others by content.
fn is_same(heap: &Heap, one: Value, other: Value) -> bool
    requires one { IsIn (sizes_of heap.now) one }
    requires other { IsIn (sizes_of heap.now) other }
    ensures { (I : Telling) (names : List Text) → Fits I names heap.now
        → is_same (tell I one) (tell I other) ≡ result }
{
    match one {
        Value::Nil => matches!(other, Value::Nil),
        Value::True => matches!(other, Value::True),
        Value::False => matches!(other, Value::False),
        Value::Int(number) => matches!(other, Value::Int(same) if same == number),
        Value::Text(text) => is_text(heap, text, other),
        Value::Sym(name) => matches!(other, Value::Sym(same) if same.0 == name.0),
        Value::Array(_) => false,
        Value::Object(object) => is_object(object, other),
        Value::Module(module) => is_module(module, other),
    }
}

/// Whether arrays are the same: by their sizes, and then by their items, from the left until one decides. None with
/// fewer steps left than that costs.
#[cycle(same)]
fn are_same(heap: &Heap, one: ArrayRef, other: ArrayRef, meter: &mut Meter) -> Option<bool>
    requires one { one.0 < length heap.now.arrays }
    requires other { other.0 < length heap.now.arrays }
    ensures depth { meter.new.depth ≡ meter.old.depth }
    ensures told { Answers heap.now (λ I. same (tell I (ArrayValue one)) (tell I (ArrayValue other)))
        meter.old.left meter.new.left (λ I. answer_seen result) }
{
    heap.holds_earlier();
    let items = heap.items(one);
    let others = heap.items(other);
    if items.len() != others.len() {
        return Some(false);
    }
    for (index, item) in items.iter().enumerate() {
        if !meter.tick(1) {
            return None;
        }
        let are_same = same(heap, *item, others[index], meter)?;
        if !are_same {
            return Some(false);
        }
    }
    Some(true)
}

/// Whether values are the same. At most 100 arrays stand in one another. None with fewer steps left than that costs.
#[cycle(same)]
pub fn same(heap: &Heap, one: Value, other: Value, meter: &mut Meter) -> Option<bool>
    requires one { IsIn (sizes_of heap.now) one }
    requires other { IsIn (sizes_of heap.now) other }
    ensures depth { meter.new.depth ≡ meter.old.depth }
    ensures told { Answers heap.now (λ I. same (tell I one) (tell I other))
        meter.old.left meter.new.left (λ I. answer_seen result) }
{
    let Value::Array(first) = one else {
        return Some(is_same(heap, one, other));
    };
    let Value::Array(second) = other else {
        return Some(false);
    };
    are_same(heap, first, second, meter)
}

/// Whether a value is among the items, each of which costs a step. None with fewer steps left than that costs.
pub fn is_among(heap: &Heap, value: Value, items: &[Value], meter: &mut Meter) -> Option<bool>
    requires value { IsIn (sizes_of heap.now) value }
    requires items { All (IsIn (sizes_of heap.now)) items.now }
    ensures depth { meter.new.depth ≡ meter.old.depth }
    ensures told { Answers heap.now (λ I. among (tell I value) (map (tell I) items.now))
        meter.old.left meter.new.left (λ I. answer_seen result) }
{
    for item in items {
        if !meter.tick(1) {
            return None;
        }
        let found = same(heap, *item, value, meter)?;
        if found {
            return Some(true);
        }
    }
    Some(false)
}
