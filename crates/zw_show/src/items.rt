//! Inspect texts of values.
ghost use Rattle.std.specs.Prelude.{◌≡◌, ◌<◌, ◌≤◌, ◌++◌, length};
ghost use Rattle.std.specs.Fmt.{signed_decimal};
ghost use Rattle.zw_heap.specs.Heap.{sizes_of};
ghost use Rattle.zw_heap.specs.Sound.{IsIn};
ghost use Rattle.zw_show.specs.Shown.{separator, array_shown, shown};
ghost use Rattle.zw_show.specs.Writes.{Writes};

use crate::fault::ShowFault;
use crate::object::{push_object, push_path};
use crate::piece::push;
use crate::quote::push_quoted;
use crate::symbol::push_symbol;
use crate::writer::Writer;
use zw_heap::{ArrayRef, Heap, Value};
use zw_names::Names;

/// Writes a number in decimal digits.
fn push_number(writer: &mut Writer, number: i64) -> Result<(), ShowFault>
    ensures { Writes writer.old writer.new (signed_decimal number) result }
{
    let text = format!(in writer.alloc; "{number}")?;
    push(writer, text.as_str())
}

/// Writes what stands before the item of an array at a place.
fn push_separator(writer: &mut Writer, index: usize) -> Result<(), ShowFault>
    ensures { Writes writer.old writer.new (separator index) result }
{
    if index == 0 {
        return Ok(());
    }
    push(writer, ", ")
}

/// Writes an item of an array, by its place there.
#[cycle(inspect)]
fn push_item(
    writer: &mut Writer,
    heap: &Heap,
    names: &Names,
    index: usize,
    item: Value,
) -> Result<(), ShowFault>
    requires held { IsIn (sizes_of heap.now) item }
    requires named { heap.now.names ≤ length names.now }
    ensures { Writes writer.old writer.new (separator index ++ shown names.now heap.now item) result }
{
    push_separator(writer, index)?;
    push_value(writer, heap, names, item)
}

/// Writes an array. At most 100 arrays stand in one another, and each writes at least two bytes.
#[cycle(inspect)]
fn push_array(
    writer: &mut Writer,
    heap: &Heap,
    names: &Names,
    array: ArrayRef,
) -> Result<(), ShowFault>
    requires held { array.0 < length heap.now.arrays }
    requires named { heap.now.names ≤ length names.now }
    ensures { Writes writer.old writer.new (array_shown names.now heap.now array.0) result }
{
    heap.holds_earlier();
    push(writer, "[")?;
    let items = heap.items(array);
    for (index, item) in items.iter().enumerate() {
        push_item(writer, heap, names, index, *item)?;
    }
    push(writer, "]")
}

/// Writes the inspect text of a value.
#[cycle(inspect)]
pub(crate) fn push_value(
    writer: &mut Writer,
    heap: &Heap,
    names: &Names,
    value: Value,
) -> Result<(), ShowFault>
    requires held { IsIn (sizes_of heap.now) value }
    requires named { heap.now.names ≤ length names.now }
    ensures { Writes writer.old writer.new (shown names.now heap.now value) result }
{
    match value {
        Value::Nil => push(writer, "nil"),
        Value::True => push(writer, "true"),
        Value::False => push(writer, "false"),
        Value::Int(number) => push_number(writer, number),
        Value::Text(text) => push_quoted(writer, heap.text(text)),
        Value::Sym(name) => push_symbol(writer, names.text(name)),
        Value::Array(array) => push_array(writer, heap, names, array),
        Value::Object(object) => push_object(writer, heap, names, object),
        Value::Module(module) => push_path(writer, heap, names, module),
    }
}
