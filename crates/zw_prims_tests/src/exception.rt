//! Methods of Exception.
ghost use Rattle.std.specs.Prelude.{◌≤◌, length, ◌≡◌, IfOk};
ghost use Rattle.std.specs.List.{All};
ghost use Rattle.zw_heap.specs.Heap.{sizes_of};
ghost use Rattle.zw_heap.specs.Sound.{IsIn, Stays};
ghost use Rattle.zw_heap.specs.declared.value.Value.TheVariants.{Object as ObjectValue};

use crate::call::answered;
use crate::exception_table::TEXTS;
use crate::item::Item::{Int, Nil, Symbol, Text};
use crate::item::{Item, values};
use std::alloc::Global;
use std::process::Abort;
use std::test::Fail;
use zw_calls::{ExceptionRow, PrimId, prim};
use zw_heap::{CoreClass, Heap, ObjRef, Value};
use zw_names::Names;

fn row(rt: &impl Abort, name: &str) -> ExceptionRow {
    match prim(CoreClass::Exception, name) {
        Some(PrimId::Exception(row)) => row,
        _ => panic!(rt; "no method {name}"),
    }
}

/// What a call answers with so many steps left, and the steps left then.
fn told(
    rt: &impl Abort,
    alloc: Global,
    name: &str,
    object: ObjRef,
    args: &[Value],
    left: u64,
    heap: &mut Heap,
    names: &mut Names,
) -> Result<(String, u64), Fail>
    requires receiver { IsIn (sizes_of heap.old) (ObjectValue object) }
    requires held { All (IsIn (sizes_of heap.old)) args.now }
    requires named { heap.old.names ≤ length names.old }
    ensures stays { Stays heap.old heap.new }
    ensures named { heap.new.names ≤ length names.new }
{
    let receiver = Value::Object(object);
    assert!(rt;
        heap.makes_exceptions(heap.class_of(receiver)),
        "no exception"
    );
    let prim = PrimId::Exception(row(rt, name));
    answered(alloc, prim, receiver, args, left, heap, names)
}

/// What a call without arguments answers, with so many steps left, to an exception that keeps a text.
fn alone(
    rt: &impl Abort,
    alloc: Global,
    name: &str,
    class: CoreClass,
    kept: Option<&str>,
    left: u64,
) -> Result<(String, u64), Fail> {
    let mut names = Names::new(alloc)?;
    let mut heap = Heap::new(alloc, &mut names)?;
    let object = heap.make_object(heap.core(class))?;
    if let Some(text) = kept {
        heap.set_message(object, text)?;
    }
    told(rt, alloc, name, object, &[], left, &mut heap, &mut names)
}

#[test]
fn a_message_is_the_kept_text_or_the_class(rt: HostRuntime) -> Result<(), Fail> {
    for (name, class, kept, wanted) in TEXTS {
        let (made, _) = alone(&rt, rt.alloc(), name, *class, *kept, 9)?;
        assert!(rt; made.as_str() == *wanted, "{name}: {made}, not {wanted}");
    }
    Ok(())
}

#[test]
fn the_errors_of_zeitwerk_have_whole_paths(rt: HostRuntime) -> Result<(), Fail> {
    let alloc = rt.alloc();
    let (made, _) = alone(&rt, alloc, "message", CoreClass::SetupRequired, None, 0)?;
    assert!(rt; made.as_str() == "\"Zeitwerk::SetupRequired\"", "{made}");
    let (made, _) = alone(
        &rt,
        alloc,
        "inspect",
        CoreClass::ZeitwerkError,
        Some("a"),
        0,
    )?;
    assert!(rt; made.as_str() == "\"#<Zeitwerk::Error: a>\"", "{made}");
    Ok(())
}

/// A NameError, which may keep a text and may be frozen.
fn name_error(kept: Option<&str>, is_frozen: bool, heap: &mut Heap) -> Result<ObjRef, Fail>
    ensures held { IfOk result (λ object. IsIn (sizes_of heap.new) (ObjectValue object)) }
    ensures names { heap.new.names ≡ heap.old.names }
{
    let object = heap.make_object(heap.core(CoreClass::NameError))?;
    if let Some(text) = kept {
        heap.set_message(object, text)?;
    }
    if is_frozen {
        heap.freeze(Value::Object(object));
    }
    Ok(object)
}

/// What an exception answers to `initialize` and then to `inspect`.
fn initialized(
    rt: &impl Abort,
    alloc: Global,
    kept: Option<&str>,
    is_frozen: bool,
    args: &[Item],
) -> Result<(String, String), Fail> {
    let mut names = Names::new(alloc)?;
    let mut heap = Heap::new(alloc, &mut names)?;
    let object = name_error(kept, is_frozen, &mut heap)?;
    let args = values(alloc, args, &mut heap, &mut names)?;
    let args = args.as_slice();
    let (made, left) = told(
        rt,
        alloc,
        "initialize",
        object,
        args,
        0,
        &mut heap,
        &mut names,
    )?;
    assert!(rt; left == 0, "{left} steps left");
    let (shown, _) = told(rt, alloc, "inspect", object, &[], 9, &mut heap, &mut names)?;
    Ok((made, shown))
}

/// The text that an exception keeps, whether it is frozen, the arguments of `initialize`, what that answers, and the
/// inspect text after it.
type Start = (
    Option<&'static str>,
    bool,
    &'static [Item],
    &'static str,
    &'static str,
);

const STARTS: &[Start] = &[
    (None, false, &[], "nil", "\"#<NameError: NameError>\""),
    (None, false, &[Text("a")], "nil", "\"#<NameError: a>\""),
    (None, false, &[Text("")], "nil", "\"NameError\""),
    (Some("old"), false, &[], "nil", "\"#<NameError: old>\""),
    (
        Some("old"),
        false,
        &[Text("new")],
        "nil",
        "\"#<NameError: new>\"",
    ),
    (Some("old"), false, &[Text("")], "nil", "\"NameError\""),
    (
        Some("old"),
        false,
        &[Nil],
        "! TypeError: wrong argument type NilClass (expected String)",
        "\"#<NameError: old>\"",
    ),
    (
        Some("old"),
        false,
        &[Symbol("new")],
        "! TypeError: wrong argument type Symbol (expected String)",
        "\"#<NameError: old>\"",
    ),
    (
        None,
        false,
        &[Text("a"), Text("b")],
        "! ArgumentError: wrong number of arguments (given 2, expected 0..1)",
        "\"#<NameError: NameError>\"",
    ),
    (
        Some("old"),
        true,
        &[Text("new")],
        "! FrozenError: can't modify frozen #<NameError: old>",
        "\"#<NameError: old>\"",
    ),
    (
        Some("old"),
        true,
        &[],
        "! FrozenError: can't modify frozen #<NameError: old>",
        "\"#<NameError: old>\"",
    ),
    (
        None,
        true,
        &[],
        "! FrozenError: can't modify frozen #<NameError: NameError>",
        "\"#<NameError: NameError>\"",
    ),
    (
        Some("old"),
        true,
        &[Int(1)],
        "! TypeError: wrong argument type Integer (expected String)",
        "\"#<NameError: old>\"",
    ),
    (
        Some("old"),
        true,
        &[Int(1), Int(2)],
        "! ArgumentError: wrong number of arguments (given 2, expected 0..1)",
        "\"#<NameError: old>\"",
    ),
];

#[test]
fn initialize_keeps_the_text_that_is_given(rt: HostRuntime) -> Result<(), Fail> {
    for (kept, is_frozen, args, wanted, later) in STARTS {
        let (made, shown) = initialized(&rt, rt.alloc(), *kept, *is_frozen, args)?;
        assert!(rt;
            made.as_str() == *wanted,
            "initialize: {made}, not {wanted}"
        );
        assert!(rt; shown.as_str() == *later, "{shown}, not {later}");
    }
    Ok(())
}

/// A text of so many bytes.
fn text_of(alloc: Global, size: usize) -> Result<String, Fail> {
    let mut text = String::new(alloc);
    for _ in 0..size {
        text.push_str("a")?;
    }
    Ok(text)
}

#[test]
fn a_message_costs_a_step_for_each_64_bytes(rt: HostRuntime) -> Result<(), Fail> {
    let alloc = rt.alloc();
    let class = CoreClass::NameError;
    let less = text_of(alloc, 63)?;
    let enough = text_of(alloc, 64)?;
    let (_, left) = alone(&rt, alloc, "message", class, Some(less.as_str()), 5)?;
    assert!(rt; left == 5, "{left} steps left");
    let (_, left) = alone(&rt, alloc, "to_s", class, Some(enough.as_str()), 5)?;
    assert!(rt; left == 4, "{left} steps left");
    let (made, left) = alone(&rt, alloc, "message", class, Some(enough.as_str()), 0)?;
    assert!(rt; made.as_str() == "budget", "{made}");
    assert!(rt; left == 0, "{left} steps left");
    Ok(())
}

#[test]
fn an_inspect_text_may_be_too_long(rt: HostRuntime) -> Result<(), Fail> {
    let alloc = rt.alloc();
    let longest = text_of(alloc, 1_048_576)?;
    let kept = Some(longest.as_str());
    let (made, left) = alone(&rt, alloc, "inspect", CoreClass::NameError, kept, 0)?;
    assert!(rt; made.as_str() == "! RangeError: text too long", "{made}");
    assert!(rt; left == 0, "{left} steps left");
    let (made, _) = initialized(&rt, alloc, kept, true, &[])?;
    assert!(rt; made.as_str() == "! RangeError: text too long", "{made}");
    Ok(())
}
