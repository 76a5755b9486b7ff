//! How a fault tells a receiver.
ghost use Rattle.std.specs.Prelude.{◌≡◌, ◌≤◌, length, IfOk, string_bytes};
ghost use Rattle.zw_base.specs.Fault.{IfRefused};
ghost use Rattle.zw_def_world.specs.Inspect.{instance_text};
ghost use Rattle.zw_def_world.specs.Making.{max_text};
ghost use Rattle.zw_heap.specs.declared.value.Value.TheVariants.{Module as ModuleValue};
ghost use Rattle.zw_heap.specs.declared.value.Value.{Value as Item};
ghost use Rattle.zw_heap.specs.Heap.{sizes_of};
ghost use Rattle.zw_heap.specs.Sound.{IsIn};
ghost use Rattle.zw_show.specs.IsTold.{IsTold, IsTooLong, receiver_of};
ghost use Rattle.zw_show.specs.Shown.{path_shown, instance_shown, module_shown, receiver_shown};
ghost use Rattle.zw_show.specs.Writes.{Writes};

use crate::fault::ShowFault;
use crate::object::push_path;
use crate::piece::push;
use crate::value::tells_values;
use crate::writer::{MAX_TEXT, Writer};
use std::alloc::Global;
use zw_heap::{Heap, ModuleId, ModuleKind, Value};
use zw_names::Names;

/// Writes a class or module with the word for which it is.
fn push_module(
    writer: &mut Writer,
    heap: &Heap,
    names: &Names,
    of: ModuleId,
) -> Result<(), ShowFault>
    requires held { IsIn (sizes_of heap.now) (ModuleValue of) }
    requires named { heap.now.names ≤ length names.now }
    ensures { Writes writer.old writer.new (module_shown names.now heap.now of.0) result }
{
    let word = match heap.kind(of) {
        ModuleKind::Module => "module ",
        ModuleKind::Class(_) => "class ",
    };
    push(writer, word)?;
    push_path(writer, heap, names, of)
}

/// Writes an instance of a class.
fn push_instance(
    writer: &mut Writer,
    heap: &Heap,
    names: &Names,
    class: ModuleId,
) -> Result<(), ShowFault>
    requires held { IsIn (sizes_of heap.now) (ModuleValue class) }
    requires named { heap.now.names ≤ length names.now }
    ensures { Writes writer.old writer.new (instance_text (path_shown names.now heap.now class.0)) result }
{
    push(writer, "an instance of ")?;
    push_path(writer, heap, names, class)
}

/// Writes a value by its class.
fn push_by_class(
    writer: &mut Writer,
    heap: &Heap,
    names: &Names,
    value: Value,
) -> Result<(), ShowFault>
    requires held { IsIn (sizes_of heap.now) value }
    requires named { heap.now.names ≤ length names.now }
    ensures { Writes writer.old writer.new (instance_shown names.now heap.now value) result }
{
    let class = heap.class_of(value);
    push_instance(writer, heap, names, class)
}

/// Writes a receiver.
fn push_receiver(
    writer: &mut Writer,
    heap: &Heap,
    names: &Names,
    value: Value,
) -> Result<(), ShowFault>
    requires held { IsIn (sizes_of heap.now) value }
    requires named { heap.now.names ≤ length names.now }
    ensures { Writes writer.old writer.new (receiver_shown names.now heap.now value) result }
{
    match value {
        Value::Nil => push(writer, "nil"),
        Value::True => push(writer, "true"),
        Value::False => push(writer, "false"),
        Value::Module(of) => push_module(writer, heap, names, of),
        Value::Object(object) if object == heap.main() => push(writer, "main"),
        _ => push_by_class(writer, heap, names, value),
    }
}

/// How a fault tells a receiver: `nil`, `true`, `false` or `main`, a class or module with the word for which it is, and
/// any other value by its class.
pub fn receiver_text(
    alloc: Global,
    heap: &Heap,
    names: &Names,
    value: Value,
) -> Result<String, ShowFault>
    requires held { IsIn (sizes_of heap.now) value }
    requires named { heap.now.names ≤ length names.now }
    ensures told { IfOk result (λ made.
        IsTold heap.now names.now (receiver_of value) (string_bytes made)) }
    ensures fits { IfOk result (λ made. length (string_bytes made) ≤ max_text) }
    ensures refused { IfRefused result (λ refusal. IsTooLong heap.now names.now (receiver_of value)) }
{
    tells_values(heap, names);
    let mut writer = Writer::new(alloc, MAX_TEXT);
    push_receiver(&mut writer, heap, names, value)?;
    Ok(writer.text)
}
