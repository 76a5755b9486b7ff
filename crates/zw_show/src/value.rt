//! Texts of values.
ghost use Rattle.std.specs.Prelude.{◌≡◌, ◌≤◌, length, IfOk, string_bytes};
ghost use Rattle.zw_base.specs.Fault.{IfRefused};
ghost use Rattle.zw_def_world.specs.Making.{max_text};
ghost use Rattle.zw_heap.specs.declared.value.Value.{Value as Item};
ghost use Rattle.zw_heap.specs.declared.value.Value.TheVariants.{Object as ObjectValue};
ghost use Rattle.zw_heap.specs.Heap.{sizes_of};
ghost use Rattle.zw_heap.specs.Sound.{IsIn};
ghost use Rattle.zw_show.specs.IsTold.{IsTold, IsTooLong, inspect_of, built_in_of, receiver_of};
ghost use Rattle.zw_show.specs.Shown.{shown, built_in_shown, receiver_shown};
ghost use Rattle.zw_show.specs.Writes.{Writes};

use crate::fault::ShowFault;
use crate::items::push_value;
use crate::object::{push_object, push_path};
use crate::piece::push;
use crate::writer::{MAX_TEXT, Writer};
use std::alloc::Global;
use zw_heap::{Heap, ObjRef, Value};
use zw_names::Names;

/// The text of each value is the same in every world.
pub(crate) fn tells_values(heap: &Heap, names: &Names)
    requires { heap.now.names ≤ length names.now }
    ensures inspect { (x : Item) → IsIn (sizes_of heap.now) x
        → IsTold heap.now names.now (inspect_of x) (shown names.now heap.now x) }
    ensures built_in { (x : Item) → IsIn (sizes_of heap.now) x
        → IsTold heap.now names.now (built_in_of x) (built_in_shown names.now heap.now x) }
    ensures receiver { (x : Item) → IsIn (sizes_of heap.now) x
        → IsTold heap.now names.now (receiver_of x) (receiver_shown names.now heap.now x) }
{
    let _ = names;
    heap.is_sound();
    heap.holds_earlier();
    heap.tells_core();
    heap.tells_exceptions();
}

/// The inspect text of a value (ISO/IEC 30170, 15.3.1.3.17). No method of a program is called. A text that would be
/// longer than a text may be is refused as soon as it is, however long it would become.
pub fn inspect(alloc: Global, heap: &Heap, names: &Names, value: Value) -> Result<String, ShowFault>
    requires held { IsIn (sizes_of heap.now) value }
    requires named { heap.now.names ≤ length names.now }
    ensures told { IfOk result (λ made.
        IsTold heap.now names.now (inspect_of value) (string_bytes made)) }
    ensures fits { IfOk result (λ made. length (string_bytes made) ≤ max_text) }
    ensures refused { IfRefused result (λ refusal. IsTooLong heap.now names.now (inspect_of value)) }
{
    tells_values(heap, names);
    let mut writer = Writer::new(alloc, MAX_TEXT);
    push_value(&mut writer, heap, names, value)?;
    Ok(writer.text)
}

/// Writes the built-in text of an object: the message of an exception, and the inspect text of another one.
fn push_object_built_in(
    writer: &mut Writer,
    heap: &Heap,
    names: &Names,
    object: ObjRef,
) -> Result<(), ShowFault>
    requires held { IsIn (sizes_of heap.now) (ObjectValue object) }
    requires named { heap.now.names ≤ length names.now }
    ensures { Writes writer.old writer.new (built_in_shown names.now heap.now (ObjectValue object)) result }
{
    let class = heap.class_of(Value::Object(object));
    if !heap.makes_exceptions(class) {
        return push_object(writer, heap, names, object);
    }
    match heap.message(object) {
        Some(message) => push(writer, message),
        None => push_path(writer, heap, names, class),
    }
}

/// Writes the built-in text of a value.
fn push_built_in(
    writer: &mut Writer,
    heap: &Heap,
    names: &Names,
    value: Value,
) -> Result<(), ShowFault>
    requires held { IsIn (sizes_of heap.now) value }
    requires named { heap.now.names ≤ length names.now }
    ensures { Writes writer.old writer.new (built_in_shown names.now heap.now value) result }
{
    match value {
        Value::Nil => Ok(()),
        Value::Text(text) => push(writer, heap.text(text)),
        Value::Sym(name) => push(writer, names.text(name)),
        Value::Object(object) => push_object_built_in(writer, heap, names, object),
        _ => push_value(writer, heap, names, value),
    }
}

/// The text of a value where no method of a program is called (ISO/IEC 30170, 15.3.1.3.46): a text itself, nothing for
/// nil, the name of a symbol, the message of an exception, and the inspect text of all others.
pub fn to_text(alloc: Global, heap: &Heap, names: &Names, value: Value) -> Result<String, ShowFault>
    requires held { IsIn (sizes_of heap.now) value }
    requires named { heap.now.names ≤ length names.now }
    ensures told { IfOk result (λ made.
        IsTold heap.now names.now (built_in_of value) (string_bytes made)) }
    ensures fits { IfOk result (λ made. length (string_bytes made) ≤ max_text) }
    ensures refused { IfRefused result (λ refusal. IsTooLong heap.now names.now (built_in_of value)) }
{
    tells_values(heap, names);
    let mut writer = Writer::new(alloc, MAX_TEXT);
    push_built_in(&mut writer, heap, names, value)?;
    Ok(writer.text)
}
