//! Texts of objects and exceptions.
use std::alloc::Global;
use std::process::Abort;
use std::test::Fail;
use zw_heap::{CoreClass, Heap, Value};
use zw_names::Names;
use zw_show::{inspect, to_text};

/// An exception, its inspect text and its built-in text.
fn try_exception(
    rt: &impl Abort,
    alloc: Global,
    class: CoreClass,
    message: Option<&str>,
    wanted: (&str, &str),
) -> Result<(), Fail> {
    let mut names = Names::new(alloc)?;
    let mut heap = Heap::new(alloc, &mut names)?;
    let object = heap.make_object(heap.core(class))?;
    if let Some(text) = message {
        heap.set_message(object, text)?;
    }
    let made = inspect(alloc, &heap, &names, Value::Object(object))?;
    assert!(rt; made.as_str() == wanted.0, "at {}", wanted.0);
    let made = to_text(alloc, &heap, &names, Value::Object(object))?;
    assert!(rt; made.as_str() == wanted.1, "at {}", wanted.0);
    Ok(())
}

#[test]
fn exceptions_have_messages(rt: HostRuntime) -> Result<(), Fail> {
    let class = CoreClass::TypeError;
    try_exception(
        &rt,
        rt.alloc(),
        class,
        Some("no"),
        ("#<TypeError: no>", "no"),
    )?;
    try_exception(
        &rt,
        rt.alloc(),
        class,
        Some("a\nb\\"),
        ("#<TypeError: a\nb\\>", "a\nb\\"),
    )?;
    try_exception(&rt, rt.alloc(), class, Some(""), ("TypeError", ""))?;
    try_exception(
        &rt,
        rt.alloc(),
        class,
        None,
        ("#<TypeError: TypeError>", "TypeError"),
    )
}

#[test]
fn classes_below_exception_make_exceptions(rt: HostRuntime) -> Result<(), Fail> {
    let exception = CoreClass::Exception;
    try_exception(
        &rt,
        rt.alloc(),
        exception,
        Some("x"),
        ("#<Exception: x>", "x"),
    )?;
    let nested = CoreClass::ZeitwerkNameError;
    try_exception(
        &rt,
        rt.alloc(),
        nested,
        Some("x"),
        ("#<Zeitwerk::NameError: x>", "x"),
    )
}

#[test]
fn other_objects_have_their_class(rt: HostRuntime) -> Result<(), Fail> {
    try_exception(
        &rt,
        rt.alloc(),
        CoreClass::Object,
        None,
        ("#<Object>", "#<Object>"),
    )?;
    try_exception(
        &rt,
        rt.alloc(),
        CoreClass::Object,
        Some("x"),
        ("#<Object>", "#<Object>"),
    )
}

#[test]
fn main_has_a_word(rt: HostRuntime) -> Result<(), Fail> {
    let mut names = Names::new(rt.alloc())?;
    let heap = Heap::new(rt.alloc(), &mut names)?;
    let made = inspect(rt.alloc(), &heap, &names, Value::Object(heap.main()))?;
    assert!(rt; made.as_str() == "main");
    let made = to_text(rt.alloc(), &heap, &names, Value::Object(heap.main()))?;
    assert!(rt; made.as_str() == "main");
    Ok(())
}
