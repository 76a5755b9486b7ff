//! Texts of numbers, texts, symbols, arrays and modules.
ghost use Rattle.std.specs.Prelude.{◌≡◌, ◌<◌, IfOk, length};

use std::alloc::Global;
use std::process::Abort;
use std::test::Fail;
use zw_heap::{ArrayRef, CoreClass, Heap, HeapFault, Value};
use zw_names::Names;
use zw_show::{inspect, to_text};

fn try_number(rt: &impl Abort, alloc: Global, number: i64, wanted: &str) -> Result<(), Fail> {
    let mut names = Names::new(alloc)?;
    let heap = Heap::new(alloc, &mut names)?;
    let made = inspect(alloc, &heap, &names, Value::Int(number))?;
    assert!(rt; made.as_str() == wanted, "at {wanted}");
    let made = to_text(alloc, &heap, &names, Value::Int(number))?;
    assert!(rt; made.as_str() == wanted, "at {wanted}");
    Ok(())
}

/// Numbers, and their digits.
const NUMBERS: &[(i64, &str)] = &[
    (0, "0"),
    (7, "7"),
    (-1, "-1"),
    (-120, "-120"),
    (i64::MAX, "9223372036854775807"),
    (i64::MIN, "-9223372036854775808"),
];

#[test]
fn numbers_have_decimal_digits(rt: HostRuntime) -> Result<(), Fail> {
    for (number, wanted) in NUMBERS {
        try_number(&rt, rt.alloc(), *number, wanted)?;
    }
    Ok(())
}

fn try_constant(
    rt: &impl Abort,
    alloc: Global,
    value: Value,
    shown: &str,
    text: &str,
) -> Result<(), Fail> {
    let mut names = Names::new(alloc)?;
    let heap = Heap::new(alloc, &mut names)?;
    let value = match value {
        Value::True => Value::True,
        Value::False => Value::False,
        _ => Value::Nil,
    };
    let made = inspect(alloc, &heap, &names, value)?;
    assert!(rt; made.as_str() == shown, "at {shown}");
    let made = to_text(alloc, &heap, &names, value)?;
    assert!(rt; made.as_str() == text, "at {shown}");
    Ok(())
}

#[test]
fn truth_and_nil_have_words(rt: HostRuntime) -> Result<(), Fail> {
    try_constant(&rt, rt.alloc(), Value::Nil, "nil", "")?;
    try_constant(&rt, rt.alloc(), Value::True, "true", "true")?;
    try_constant(&rt, rt.alloc(), Value::False, "false", "false")
}

fn try_text(rt: &impl Abort, alloc: Global, text: &str, wanted: &str) -> Result<(), Fail> {
    let mut names = Names::new(alloc)?;
    let mut heap = Heap::new(alloc, &mut names)?;
    let value = Value::Text(heap.make_text(text)?);
    let made = inspect(alloc, &heap, &names, value)?;
    assert!(rt; made.as_str() == wanted, "at {text}");
    let made = to_text(alloc, &heap, &names, value)?;
    assert!(rt; made.as_str() == text, "at {text}");
    Ok(())
}

#[test]
fn texts_stand_in_quotes(rt: HostRuntime) -> Result<(), Fail> {
    try_text(&rt, rt.alloc(), "", "\"\"")?;
    try_text(&rt, rt.alloc(), "a\nb", "\"a\\nb\"")?;
    try_text(&rt, rt.alloc(), "é\u{7f}", "\"é\\u{7f}\"")
}

fn try_symbol(rt: &impl Abort, alloc: Global, text: &str, wanted: &str) -> Result<(), Fail> {
    let mut names = Names::new(alloc)?;
    let name = names.intern(text)?;
    let heap = Heap::new(alloc, &mut names)?;
    let value = Value::Sym(name);
    let made = inspect(alloc, &heap, &names, value)?;
    assert!(rt; made.as_str() == wanted, "at {text}");
    let made = to_text(alloc, &heap, &names, value)?;
    assert!(rt; made.as_str() == text, "at {text}");
    Ok(())
}

#[test]
fn symbols_are_their_names(rt: HostRuntime) -> Result<(), Fail> {
    try_symbol(&rt, rt.alloc(), "a=", ":a=")?;
    try_symbol(&rt, rt.alloc(), "a b", ":\"a b\"")
}

fn try_module(rt: &impl Abort, alloc: Global, class: CoreClass, wanted: &str) -> Result<(), Fail> {
    let mut names = Names::new(alloc)?;
    let heap = Heap::new(alloc, &mut names)?;
    let value = Value::Module(heap.core(class));
    let made = inspect(alloc, &heap, &names, value)?;
    assert!(rt; made.as_str() == wanted, "at {wanted}");
    let made = to_text(alloc, &heap, &names, value)?;
    assert!(rt; made.as_str() == wanted, "at {wanted}");
    Ok(())
}

#[test]
fn modules_are_their_paths(rt: HostRuntime) -> Result<(), Fail> {
    try_module(&rt, rt.alloc(), CoreClass::Object, "Object")?;
    try_module(&rt, rt.alloc(), CoreClass::Kernel, "Kernel")?;
    try_module(&rt, rt.alloc(), CoreClass::Zeitwerk, "Zeitwerk")?;
    try_module(
        &rt,
        rt.alloc(),
        CoreClass::ZeitwerkNameError,
        "Zeitwerk::NameError",
    )
}

/// An array that holds a number, the array of the numbers before it, and nil.
fn nested(heap: &mut Heap, numbers: &[i64]) -> Result<ArrayRef, HeapFault>
    ensures held { IfOk result (λ array. array.0 < length heap.new.arrays) }
    ensures names { heap.new.names ≡ heap.old.names }
{
    let mut array = heap.make_array(&[])?;
    for number in numbers {
        array = heap.make_array(&[Value::Int(*number), Value::Array(array), Value::Nil])?;
    }
    Ok(array)
}

fn try_array(rt: &impl Abort, alloc: Global, numbers: &[i64], wanted: &str) -> Result<(), Fail> {
    let mut names = Names::new(alloc)?;
    let mut heap = Heap::new(alloc, &mut names)?;
    let array = nested(&mut heap, numbers)?;
    let made = inspect(alloc, &heap, &names, Value::Array(array))?;
    assert!(rt; made.as_str() == wanted, "at {wanted}");
    let made = to_text(alloc, &heap, &names, Value::Array(array))?;
    assert!(rt; made.as_str() == wanted, "at {wanted}");
    Ok(())
}

#[test]
fn arrays_have_their_items(rt: HostRuntime) -> Result<(), Fail> {
    try_array(&rt, rt.alloc(), &[], "[]")?;
    try_array(&rt, rt.alloc(), &[1], "[1, [], nil]")?;
    try_array(&rt, rt.alloc(), &[1, -2], "[-2, [1, [], nil], nil]")
}
