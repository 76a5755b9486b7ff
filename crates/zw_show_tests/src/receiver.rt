//! How a fault tells receivers.
use std::alloc::Global;
use std::process::Abort;
use std::test::Fail;
use zw_heap::{CoreClass, Heap, Value};
use zw_names::Names;
use zw_show::receiver_text;

fn try_module(rt: &impl Abort, alloc: Global, class: CoreClass, wanted: &str) -> Result<(), Fail> {
    let mut names = Names::new(alloc)?;
    let heap = Heap::new(alloc, &mut names)?;
    let made = receiver_text(alloc, &heap, &names, Value::Module(heap.core(class)))?;
    assert!(rt; made.as_str() == wanted, "at {wanted}");
    Ok(())
}

#[test]
fn modules_have_a_word(rt: HostRuntime) -> Result<(), Fail> {
    try_module(&rt, rt.alloc(), CoreClass::Kernel, "module Kernel")?;
    try_module(&rt, rt.alloc(), CoreClass::Object, "class Object")?;
    try_module(
        &rt,
        rt.alloc(),
        CoreClass::SetupRequired,
        "class Zeitwerk::SetupRequired",
    )
}

#[test]
fn other_values_are_instances(rt: HostRuntime) -> Result<(), Fail> {
    let mut names = Names::new(rt.alloc())?;
    let mut heap = Heap::new(rt.alloc(), &mut names)?;
    let object = heap.make_object(heap.core(CoreClass::TypeError))?;
    let made = receiver_text(rt.alloc(), &heap, &names, Value::Object(object))?;
    assert!(rt; made.as_str() == "an instance of TypeError");
    let made = receiver_text(rt.alloc(), &heap, &names, Value::Object(heap.main()))?;
    assert!(rt; made.as_str() == "main");
    let made = receiver_text(rt.alloc(), &heap, &names, Value::Int(3))?;
    assert!(rt; made.as_str() == "an instance of Integer");
    let made = receiver_text(rt.alloc(), &heap, &names, Value::Nil)?;
    assert!(rt; made.as_str() == "nil");
    Ok(())
}
