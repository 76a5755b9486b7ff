//! Methods of Kernel and Object.
ghost use Rattle.std.specs.Prelude.{◌≤◌, length};
ghost use Rattle.std.specs.List.{All};
ghost use Rattle.zw_heap.specs.Heap.{sizes_of};
ghost use Rattle.zw_heap.specs.Sound.{IsIn};

use crate::call::answered;
use crate::item::Item::{False, Int, Main, Module, Nil, Numbers, Symbol, Text, True};
use crate::item::{Item, value, values};
use crate::kernel_table::{ALONE, EQUAL, INSTANCES, Row};
use std::alloc::Global;
use std::process::Abort;
use std::test::Fail;
use zw_calls::{KernelRow, ObjectRow, PrimId, prim};
use zw_heap::{CoreClass, Heap, Value};
use zw_names::Names;

fn row(rt: &impl Abort, name: &str) -> KernelRow {
    match prim(CoreClass::Kernel, name) {
        Some(PrimId::Kernel(row)) => row,
        _ => panic!(rt; "no method {name}"),
    }
}

/// What a call answers with so many steps left, and the steps left then.
fn told(
    rt: &impl Abort,
    alloc: Global,
    name: &str,
    receiver: &Item,
    args: &[Item],
    left: u64,
) -> Result<(String, u64), Fail> {
    let mut names = Names::new(alloc)?;
    let mut heap = Heap::new(alloc, &mut names)?;
    let prim = PrimId::Kernel(row(rt, name));
    let receiver = value(alloc, receiver, &mut heap, &mut names)?;
    let args = values(alloc, args, &mut heap, &mut names)?;
    answered(
        alloc,
        prim,
        receiver,
        args.as_slice(),
        left,
        &mut heap,
        &mut names,
    )
}

fn try_all(rt: &impl Abort, alloc: Global, rows: &[Row]) -> Result<(), Fail> {
    for (name, receiver, args, wanted) in rows {
        let (made, _) = told(rt, alloc, name, receiver, args, 999)?;
        assert!(rt;
            made.as_str() == *wanted,
            "{name} of {receiver:?}: {made}, not {wanted}"
        );
    }
    Ok(())
}

#[test]
fn methods_without_arguments(rt: HostRuntime) -> Result<(), Fail> {
    try_all(&rt, rt.alloc(), ALONE)
}

/// What a method with one argument answers.
fn try_with(
    rt: &impl Abort,
    alloc: Global,
    name: &str,
    receiver: &Item,
    other: Item,
    wanted: bool,
) -> Result<(), Fail> {
    let wanted = if wanted { "true" } else { "false" };
    let (made, _) = told(rt, alloc, name, receiver, &[other], 9)?;
    assert!(rt;
        made.as_str() == wanted,
        "{name} of {receiver:?} and {other:?}: {made}"
    );
    Ok(())
}

#[test]
fn values_are_the_same_by_content(rt: HostRuntime) -> Result<(), Fail> {
    for (receiver, other, wanted) in EQUAL {
        try_with(&rt, rt.alloc(), "==", receiver, *other, *wanted)?;
    }
    Ok(())
}

#[test]
fn an_instance_is_of_its_own_class_alone(rt: HostRuntime) -> Result<(), Fail> {
    for (receiver, class, wanted) in INSTANCES {
        let class = Item::Module(*class);
        try_with(&rt, rt.alloc(), "instance_of?", receiver, class, *wanted)?;
    }
    Ok(())
}

/// What the language answers in its own way, written down by hand: texts and arrays are the same by content, and frozen.
const OWN: &[Row] = &[
    ("equal?", Text("a"), &[Text("a")], "true"),
    ("equal?", Text("a"), &[Text("b")], "false"),
    ("equal?", Text("a"), &[Symbol("a")], "false"),
    ("equal?", Numbers(&[1, 2]), &[Numbers(&[1, 2])], "true"),
    ("equal?", Numbers(&[1, 2]), &[Numbers(&[2, 1])], "false"),
    ("equal?", Nil, &[Nil], "true"),
    ("equal?", Nil, &[False], "false"),
    ("equal?", Int(1), &[Int(1)], "true"),
    ("equal?", Main, &[Main], "true"),
    ("equal?", Main, &[Module(CoreClass::Object)], "false"),
    ("==", Main, &[Main], "true"),
    ("==", Main, &[Nil], "false"),
    ("==", Int(i64::MIN), &[Int(i64::MIN)], "true"),
    ("==", Int(i64::MIN), &[Int(i64::MAX)], "false"),
    ("frozen?", Nil, &[], "true"),
    ("frozen?", True, &[], "true"),
    ("frozen?", False, &[], "true"),
    ("frozen?", Int(1), &[], "true"),
    ("frozen?", Text("a"), &[], "true"),
    ("frozen?", Symbol("a"), &[], "true"),
    ("frozen?", Numbers(&[1]), &[], "true"),
    ("frozen?", Module(CoreClass::Object), &[], "false"),
    ("frozen?", Main, &[], "false"),
    ("class", Main, &[], "Object"),
    ("nil?", Main, &[], "false"),
    ("to_s", Main, &[], "\"main\""),
    ("inspect", Main, &[], "\"main\""),
    ("instance_of?", Main, &[Module(CoreClass::Object)], "true"),
    ("instance_of?", Main, &[Module(CoreClass::Kernel)], "false"),
    (
        "instance_of?",
        Module(CoreClass::Kernel),
        &[Module(CoreClass::Kernel)],
        "false",
    ),
    (
        "inspect",
        Module(CoreClass::ZeitwerkNameError),
        &[],
        "\"Zeitwerk::NameError\"",
    ),
];

#[test]
fn objects_are_the_same_by_identity_and_alone_are_not_frozen(rt: HostRuntime) -> Result<(), Fail> {
    try_all(&rt, rt.alloc(), OWN)
}

/// Faults: the number of the arguments is tested before their kinds.
const FAULTS: &[Row] = &[
    (
        "class",
        Nil,
        &[Nil],
        "! ArgumentError: wrong number of arguments (given 1, expected 0)",
    ),
    (
        "nil?",
        Nil,
        &[Nil],
        "! ArgumentError: wrong number of arguments (given 1, expected 0)",
    ),
    (
        "to_s",
        Int(1),
        &[Int(2)],
        "! ArgumentError: wrong number of arguments (given 1, expected 0)",
    ),
    (
        "inspect",
        Main,
        &[Nil, Nil],
        "! ArgumentError: wrong number of arguments (given 2, expected 0)",
    ),
    (
        "frozen?",
        Main,
        &[Nil],
        "! ArgumentError: wrong number of arguments (given 1, expected 0)",
    ),
    (
        "==",
        Nil,
        &[],
        "! ArgumentError: wrong number of arguments (given 0, expected 1)",
    ),
    (
        "==",
        Nil,
        &[Nil, Nil],
        "! ArgumentError: wrong number of arguments (given 2, expected 1)",
    ),
    (
        "equal?",
        Nil,
        &[],
        "! ArgumentError: wrong number of arguments (given 0, expected 1)",
    ),
    (
        "instance_of?",
        Nil,
        &[],
        "! ArgumentError: wrong number of arguments (given 0, expected 1)",
    ),
    (
        "instance_of?",
        Nil,
        &[Nil, Module(CoreClass::Object)],
        "! ArgumentError: wrong number of arguments (given 2, expected 1)",
    ),
    (
        "instance_of?",
        Nil,
        &[Nil],
        "! TypeError: wrong argument type NilClass (expected Module)",
    ),
    (
        "instance_of?",
        Int(1),
        &[Text("Integer")],
        "! TypeError: wrong argument type String (expected Module)",
    ),
    (
        "instance_of?",
        Int(1),
        &[Symbol("Integer")],
        "! TypeError: wrong argument type Symbol (expected Module)",
    ),
    (
        "instance_of?",
        Int(1),
        &[Main],
        "! TypeError: wrong argument type Object (expected Module)",
    ),
    (
        "instance_of?",
        Int(1),
        &[Numbers(&[])],
        "! TypeError: wrong argument type Array (expected Module)",
    ),
    (
        "instance_of?",
        Int(1),
        &[Int(1)],
        "! TypeError: wrong argument type Integer (expected Module)",
    ),
];

#[test]
fn arguments_are_tested(rt: HostRuntime) -> Result<(), Fail> {
    try_all(&rt, rt.alloc(), FAULTS)
}

/// A method, its receiver and its arguments, the steps left before and after, and what it answers.
type Cost = (&'static str, Item, &'static [Item], u64, u64, &'static str);

/// Sixty-three and sixty-four bytes.
const LESS: &str = "0123456789012345678901234567890123456789012345678901234567890ab";

const ENOUGH: &str = "0123456789012345678901234567890123456789012345678901234567890abc";

/// A step for each comparison of two items, and for each whole 64 bytes of a text that is made.
const COSTS: &[Cost] = &[
    ("==", Numbers(&[1, 2]), &[Numbers(&[1, 2])], 5, 3, "true"),
    ("==", Numbers(&[1, 2]), &[Numbers(&[1, 2])], 2, 0, "true"),
    ("==", Numbers(&[1, 2]), &[Numbers(&[1, 2])], 1, 0, "budget"),
    ("==", Numbers(&[1, 2]), &[Numbers(&[1, 2])], 0, 0, "budget"),
    ("==", Numbers(&[1, 2]), &[Numbers(&[2, 2])], 1, 0, "false"),
    ("==", Numbers(&[1, 2]), &[Numbers(&[1])], 0, 0, "false"),
    ("equal?", Numbers(&[7]), &[Numbers(&[7])], 1, 0, "true"),
    ("equal?", Numbers(&[7]), &[Numbers(&[7])], 0, 0, "budget"),
    ("==", Text("a"), &[Text("a")], 0, 0, "true"),
    ("class", Text("a"), &[], 0, 0, "String"),
    ("nil?", Nil, &[], 0, 0, "true"),
    ("frozen?", Nil, &[], 0, 0, "true"),
    (
        "to_s",
        Text(LESS),
        &[],
        0,
        0,
        "\"0123456789012345678901234567890123456789012345678901234567890ab\"",
    ),
    ("to_s", Text(ENOUGH), &[], 0, 0, "budget"),
    (
        "to_s",
        Text(ENOUGH),
        &[],
        3,
        2,
        "\"0123456789012345678901234567890123456789012345678901234567890abc\"",
    ),
    ("inspect", Text(LESS), &[], 0, 0, "budget"),
    ("inspect", Nil, &[], 0, 0, "\"nil\""),
    (
        "instance_of?",
        Nil,
        &[Nil],
        0,
        0,
        "! TypeError: wrong argument type NilClass (expected Module)",
    ),
];

#[test]
fn comparisons_and_texts_cost_steps(rt: HostRuntime) -> Result<(), Fail> {
    for (name, receiver, args, left, later, wanted) in COSTS {
        let (made, found) = told(&rt, rt.alloc(), name, receiver, args, *left)?;
        assert!(rt; made.as_str() == *wanted, "{name}: {made}, not {wanted}");
        assert!(rt; found == *later, "{name}: {found} steps left");
    }
    Ok(())
}

/// What `equal?` answers of an object and itself, or another one.
fn told_of_objects(rt: &impl Abort, alloc: Global, is_other: bool) -> Result<String, Fail> {
    let mut names = Names::new(alloc)?;
    let mut heap = Heap::new(alloc, &mut names)?;
    let object = Value::Object(heap.make_object(heap.core(CoreClass::Object))?);
    let other = Value::Object(heap.make_object(heap.core(CoreClass::Object))?);
    let argument = if is_other { other } else { object };
    let same = PrimId::Kernel(row(rt, "equal?"));
    let (made, _) = answered(alloc, same, object, &[argument], 9, &mut heap, &mut names)?;
    Ok(made)
}

#[test]
fn an_object_is_the_same_as_itself_alone(rt: HostRuntime) -> Result<(), Fail> {
    let made = told_of_objects(&rt, rt.alloc(), false)?;
    assert!(rt; made.as_str() == "true", "an object is not itself");
    let made = told_of_objects(&rt, rt.alloc(), true)?;
    assert!(rt; made.as_str() == "false", "two objects are the same");
    Ok(())
}

#[test]
fn an_object_is_told_by_its_class(rt: HostRuntime) -> Result<(), Fail> {
    let alloc = rt.alloc();
    let mut names = Names::new(alloc)?;
    let mut heap = Heap::new(alloc, &mut names)?;
    let object = Value::Object(heap.make_object(heap.core(CoreClass::Object))?);
    let text = PrimId::Kernel(KernelRow::ToS);
    let (made, _) = answered(alloc, text, object, &[], 9, &mut heap, &mut names)?;
    assert!(rt; made.as_str() == "\"#<Object>\"", "an object: {made}");
    Ok(())
}

/// What `frozen?` answers of `main`, or of a module, which may be frozen first.
fn told_of_frozen(
    rt: &impl Abort,
    alloc: Global,
    is_module: bool,
    freezes: bool,
) -> Result<String, Fail> {
    let mut names = Names::new(alloc)?;
    let mut heap = Heap::new(alloc, &mut names)?;
    let receiver = if is_module {
        Value::Module(heap.core(CoreClass::Kernel))
    } else {
        Value::Object(heap.main())
    };
    if freezes {
        heap.freeze(receiver);
    }
    let frozen = PrimId::Kernel(row(rt, "frozen?"));
    let (made, _) = answered(alloc, frozen, receiver, &[], 9, &mut heap, &mut names)?;
    Ok(made)
}

#[test]
fn what_was_frozen_is_frozen(rt: HostRuntime) -> Result<(), Fail> {
    for is_module in [false, true] {
        let made = told_of_frozen(&rt, rt.alloc(), is_module, true)?;
        assert!(rt; made.as_str() == "true", "frozen: {made}");
        let made = told_of_frozen(&rt, rt.alloc(), is_module, false)?;
        assert!(rt; made.as_str() == "false", "not frozen: {made}");
    }
    Ok(())
}

fn try_initialize(
    rt: &impl Abort,
    alloc: Global,
    receiver: &Item,
    args: &[Item],
    wanted: &str,
) -> Result<(), Fail> {
    let mut names = Names::new(alloc)?;
    let mut heap = Heap::new(alloc, &mut names)?;
    let receiver = value(alloc, receiver, &mut heap, &mut names)?;
    let args = values(alloc, args, &mut heap, &mut names)?;
    let prim = PrimId::Object(ObjectRow::Initialize);
    let (made, _) = answered(
        alloc,
        prim,
        receiver,
        args.as_slice(),
        0,
        &mut heap,
        &mut names,
    )?;
    assert!(rt; made.as_str() == wanted, "{made}, not {wanted}");
    Ok(())
}

#[test]
fn initialize_of_an_object_does_nothing(rt: HostRuntime) -> Result<(), Fail> {
    let alloc = rt.alloc();
    try_initialize(&rt, alloc, &Main, &[], "nil")?;
    try_initialize(&rt, alloc, &Nil, &[], "nil")?;
    try_initialize(&rt, alloc, &Module(CoreClass::Kernel), &[], "nil")?;
    let wanted = "! ArgumentError: wrong number of arguments (given 1, expected 0)";
    try_initialize(&rt, alloc, &Main, &[Nil], wanted)?;
    let wanted = "! ArgumentError: wrong number of arguments (given 2, expected 0)";
    try_initialize(&rt, alloc, &Int(3), &[Nil, Text("a")], wanted)
}
