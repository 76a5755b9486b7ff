//! Values that rows of tables name.
ghost use Rattle.std.specs.Prelude.{◌≡◌, ◌≤◌, length, IfOk};
ghost use Rattle.std.specs.List.{All};
ghost use Rattle.zw_heap.specs.Heap.{sizes_of};
ghost use Rattle.zw_heap.specs.Sound.{IsIn, Stays};

use std::alloc::Global;
use std::test::Fail;
use zw_heap::{CoreClass, Heap, Value};
use zw_names::Names;

/// A value, by what it holds.
#[derive(Clone, Copy, Debug)]
pub(crate) enum Item {
    Nil,
    True,
    False,
    Int(i64),
    Text(&'static str),
    Symbol(&'static str),
    Numbers(&'static [i64]),
    Module(CoreClass),
    Main,
}

fn numbers(alloc: Global, numbers: &[i64], heap: &mut Heap) -> Result<Value, Fail>
    ensures held { IfOk result (IsIn (sizes_of heap.new)) }
    ensures names { heap.new.names ≡ heap.old.names }
    ensures stays { Stays heap.old heap.new }
{
    let mut items = Vec::new(alloc);
    for number in numbers {
        items.push(Value::Int(*number))?;
    }
    Ok(Value::Array(heap.make_array(items.as_slice())?))
}

/// The value, in the heap.
pub(crate) fn value(
    alloc: Global,
    item: &Item,
    heap: &mut Heap,
    names: &mut Names,
) -> Result<Value, Fail>
    requires named { heap.old.names ≤ length names.old }
    ensures held { IfOk result (IsIn (sizes_of heap.new)) }
    ensures named { heap.new.names ≤ length names.new }
    ensures stays { Stays heap.old heap.new }
{
    match item {
        Item::Nil => Ok(Value::Nil),
        Item::True => Ok(Value::True),
        Item::False => Ok(Value::False),
        Item::Int(number) => Ok(Value::Int(*number)),
        Item::Text(text) => Ok(Value::Text(heap.make_text(text)?)),
        Item::Symbol(text) => {
            let name = names.intern(text)?;
            heap.tell_names(names);
            Ok(Value::Sym(name))
        }
        Item::Numbers(items) => numbers(alloc, items, heap),
        Item::Module(class) => Ok(Value::Module(heap.core(*class))),
        Item::Main => Ok(Value::Object(heap.main())),
    }
}

/// These values, in the heap.
pub(crate) fn values(
    alloc: Global,
    items: &[Item],
    heap: &mut Heap,
    names: &mut Names,
) -> Result<Vec<Value>, Fail>
    requires named { heap.old.names ≤ length names.old }
    ensures held { IfOk result (λ values. All (IsIn (sizes_of heap.new)) values.items) }
    ensures named { heap.new.names ≤ length names.new }
    ensures stays { Stays heap.old heap.new }
{
    let mut values = Vec::new(alloc);
    for item in items {
        values.push(value(alloc, item, heap, names)?)?;
    }
    Ok(values)
}
