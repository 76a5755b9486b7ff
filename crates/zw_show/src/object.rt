//! Inspect texts of modules and objects.
ghost use Rattle.std.specs.Prelude.{◌≡◌, ◌≤◌, IfOk, length, string_bytes};
ghost use Rattle.zw_def_world.specs.Inspect.{message_behind};
ghost use Rattle.zw_heap.specs.Heap.{sizes_of};
ghost use Rattle.zw_heap.specs.Sound.{IsIn};
ghost use Rattle.zw_heap.specs.declared.value.Value.TheVariants.{Module as ModuleValue, Object as ObjectValue};
ghost use Rattle.zw_show.specs.Shown.{path_shown, plain_shown, object_shown};
ghost use Rattle.zw_show.specs.Writes.{Writes};

use crate::fault::ShowFault;
use crate::piece::push;
use crate::writer::Writer;
use std::alloc::{AllocError, Global};
use zw_heap::{Heap, ModuleId, ObjRef, Value};
use zw_names::Names;

/// The path of a class or module.
pub(crate) fn path_text(
    alloc: Global,
    heap: &Heap,
    names: &Names,
    of: ModuleId,
) -> Result<String, AllocError>
    requires held { IsIn (sizes_of heap.now) (ModuleValue of) }
    requires named { heap.now.names ≤ length names.now }
    ensures { IfOk result (λ path. string_bytes path ≡ path_shown names.now heap.now of.0) }
{
    heap.path(of).text(alloc, names)
}

/// Writes the path of a class or module.
pub(crate) fn push_path(
    writer: &mut Writer,
    heap: &Heap,
    names: &Names,
    of: ModuleId,
) -> Result<(), ShowFault>
    requires held { IsIn (sizes_of heap.now) (ModuleValue of) }
    requires named { heap.now.names ≤ length names.now }
    ensures { Writes writer.old writer.new (path_shown names.now heap.now of.0) result }
{
    let path = path_text(writer.alloc, heap, names, of)?;
    push(writer, path.as_str())
}

/// Writes an object by its class.
fn push_plain(writer: &mut Writer, class: &str) -> Result<(), ShowFault>
    ensures { Writes writer.old writer.new (plain_shown class.now) result }
{
    push(writer, "#<")?;
    push(writer, class)?;
    push(writer, ">")
}

/// Writes an exception by its class and its message.
fn push_exception(writer: &mut Writer, class: &str, message: &str) -> Result<(), ShowFault>
    ensures { Writes writer.old writer.new (message_behind class.now message.now) result }
{
    if message.is_empty() {
        return push(writer, class);
    }
    push(writer, "#<")?;
    push(writer, class)?;
    push(writer, ": ")?;
    push(writer, message)?;
    push(writer, ">")
}

/// Writes an object. The message of an exception is the kept one, and no method of a program is called.
pub(crate) fn push_object(
    writer: &mut Writer,
    heap: &Heap,
    names: &Names,
    object: ObjRef,
) -> Result<(), ShowFault>
    requires held { IsIn (sizes_of heap.now) (ObjectValue object) }
    requires named { heap.now.names ≤ length names.now }
    ensures { Writes writer.old writer.new (object_shown names.now heap.now object.0) result }
{
    if object == heap.main() {
        return push(writer, "main");
    }
    let class = heap.class_of(Value::Object(object));
    let path = path_text(writer.alloc, heap, names, class)?;
    if heap.makes_exceptions(class) {
        let message = heap.message(object).unwrap_or(path.as_str());
        return push_exception(writer, path.as_str(), message);
    }
    push_plain(writer, path.as_str())
}
