//! Heaps: what is read is what was written, in that record alone.
ghost use Rattle.std.specs.Prelude.{◌<◌, IfOk, length};

use std::alloc::Global;
use std::process::Abort;
use std::test::Fail;
use zw_heap::{ArrayRef, CoreClass, Heap, HeapFault, HeapRefusal, ModuleKind, PrimId, Value};
use zw_names::{CPath, Names};

#[test]
fn a_variable_is_that_of_one_object(rt: HostRuntime) -> Result<(), Fail> {
    let mut names = Names::new(rt.alloc())?;
    let mut heap = Heap::new(rt.alloc(), &mut names)?;
    let x = names.intern("x")?;
    heap.tell_names(&names);
    let class = heap.core(CoreClass::Exception);
    let first = heap.make_object(class)?;
    let second = heap.make_object(class)?;
    heap.set_ivar(Value::Object(first), x, Value::Int(7))?;
    assert!(rt; heap.get_ivar(Value::Object(first), x) == Some(Value::Int(7)));
    assert!(rt; heap.get_ivar(Value::Object(second), x).is_none());
    assert!(rt; heap.class_of(Value::Object(second)) == class && first != second);
    Ok(())
}

/// What is refused where a record is frozen.
const FROZEN: Result<(), HeapFault> = Err(HeapFault::Refused(HeapRefusal::Frozen));

#[test]
fn what_is_frozen_keeps_its_message(rt: HostRuntime) -> Result<(), Fail> {
    let mut names = Names::new(rt.alloc())?;
    let mut heap = Heap::new(rt.alloc(), &mut names)?;
    let object = heap.make_object(heap.core(CoreClass::Exception))?;
    heap.set_message(object, "kept")?;
    assert!(rt; !heap.is_frozen(Value::Object(object)) && heap.is_frozen(Value::Int(1)));
    heap.freeze(Value::Object(object));
    assert!(rt; heap.is_frozen(Value::Object(object)));
    assert!(rt; heap.set_message(object, "other") == FROZEN);
    assert!(rt; heap.message(object) == Some("kept"));
    Ok(())
}

#[test]
fn what_is_frozen_gets_no_variable(rt: HostRuntime) -> Result<(), Fail> {
    let mut names = Names::new(rt.alloc())?;
    let x = names.intern("x")?;
    let mut heap = Heap::new(rt.alloc(), &mut names)?;
    let main = Value::Object(heap.main());
    heap.freeze(main);
    assert!(rt; heap.set_ivar(main, x, Value::Nil) == FROZEN);
    assert!(rt; heap.set_ivar(Value::Int(1), x, Value::Nil) == FROZEN);
    assert!(rt; heap.get_ivar(main, x).is_none());
    Ok(())
}

fn try_core(
    rt: &impl Abort,
    alloc: Global,
    class: CoreClass,
    path: &str,
    superclass: Option<CoreClass>,
) -> Result<(), Fail> {
    let mut names = Names::new(alloc)?;
    let heap = Heap::new(alloc, &mut names)?;
    let module = heap.core(class);
    let kind = match superclass {
        Some(above) => ModuleKind::Class(Some(heap.core(above))),
        None => ModuleKind::Module,
    };
    assert!(rt; heap.kind(module) == kind, "at {path}");
    assert!(rt; !heap.is_frozen(Value::Module(module)), "at {path}");
    let told = heap.path(module).text(alloc, &names)?;
    assert!(rt; told.as_str() == path, "at {path}");
    Ok(())
}

/// A core class or module, its path, and its superclass.
const CORE: &[(CoreClass, &str, Option<CoreClass>)] = &[
    (CoreClass::Kernel, "Kernel", None),
    (CoreClass::Zeitwerk, "Zeitwerk", None),
    (CoreClass::Class, "Class", Some(CoreClass::Module)),
    (
        CoreClass::FrozenError,
        "FrozenError",
        Some(CoreClass::RuntimeError),
    ),
    (
        CoreClass::ZeitwerkNameError,
        "Zeitwerk::NameError",
        Some(CoreClass::NameError),
    ),
];

#[test]
fn core_classes_stand_in_their_order(rt: HostRuntime) -> Result<(), Fail> {
    for (class, path, superclass) in CORE {
        try_core(&rt, rt.alloc(), *class, path, *superclass)?;
    }
    Ok(())
}

fn repeated(alloc: Global, count: usize) -> Result<String, Fail> {
    let mut text = String::new(alloc);
    for _ in 0..count {
        text.push_str("a")?;
    }
    Ok(text)
}

#[test]
fn the_longest_text_is_made(rt: HostRuntime) -> Result<(), Fail> {
    let mut names = Names::new(rt.alloc())?;
    let mut heap = Heap::new(rt.alloc(), &mut names)?;
    let text = heap.make_text(repeated(rt.alloc(), 1_048_576)?.as_str())?;
    assert!(rt; heap.text(text).len() == 1_048_576);
    let refused = heap.make_text(repeated(rt.alloc(), 1_048_577)?.as_str());
    assert!(rt; refused == Err(HeapFault::Refused(HeapRefusal::TooLong)));
    Ok(())
}

/// An array in which so many stand in one another, the outer ones with one item.
fn nested(heap: &mut Heap, count: usize) -> Result<ArrayRef, HeapFault>
    ensures { IfOk result (λ array. array.0 < length heap.new.arrays) }
{
    let mut array = heap.make_array(&[])?;
    for _ in 1..count {
        array = heap.make_array(&[Value::Array(array)])?;
    }
    Ok(array)
}

#[test]
fn arrays_are_nested_a_hundred_deep(rt: HostRuntime) -> Result<(), Fail> {
    let mut names = Names::new(rt.alloc())?;
    let mut heap = Heap::new(rt.alloc(), &mut names)?;
    let refused = Err(HeapFault::Refused(HeapRefusal::TooDeep));
    assert!(rt; nested(&mut heap, 100).is_ok());
    assert!(rt; nested(&mut heap, 101) == refused);
    Ok(())
}

#[test]
fn a_copy_has_what_boot_left(rt: HostRuntime) -> Result<(), Fail> {
    let mut names = Names::new(rt.alloc())?;
    let mut heap = Heap::new(rt.alloc(), &mut names)?;
    let early = heap.make_text("early")?;
    let class = heap.core(CoreClass::Object);
    let module = heap.make_module(CPath::object(rt.alloc()), ModuleKind::Class(Some(class)))?;
    heap.freeze_boot();
    let late = heap.make_text("late")?;
    let mut copy = heap.copy_boot()?;
    assert!(rt; copy.is_frozen(Value::Module(module)) && copy.text(early) == "early");
    assert!(rt; copy.make_text("other")? == late);
    Ok(())
}

#[test]
fn primitive_methods_have_numbers(rt: HostRuntime) -> Result<(), Fail> {
    assert!(rt; PrimId::at(115).is_some_and(|prim| prim.number() == 115));
    assert!(rt; PrimId::at(116).is_none());
    Ok(())
}
