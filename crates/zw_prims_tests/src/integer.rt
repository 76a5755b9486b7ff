//! Methods of Integer.
ghost use Rattle.std.specs.Prelude.{◌≤◌, length, IfOk};
ghost use Rattle.std.specs.List.{All};
ghost use Rattle.zw_heap.specs.Heap.{sizes_of};
ghost use Rattle.zw_heap.specs.Sound.{IsIn};
ghost use Rattle.zw_calls.specs.End.{EndIn};

use crate::integer_table::{ALONE, ARITHMETIC, BOUNDS, ORDER, Row};
use crate::outcome::outcome;
use std::alloc::Global;
use std::process::Abort;
use std::test::Fail;
use zw_calls::{IntegerRow, PrimId, prim};
use zw_heap::{CoreClass, Heap, Value};
use zw_meter::Meter;
use zw_names::Names;
use zw_prims::integer;

fn row(rt: &impl Abort, name: &str) -> IntegerRow {
    match prim(CoreClass::Integer, name) {
        Some(PrimId::Integer(row)) => row,
        _ => panic!(rt; "no method {name}"),
    }
}

/// What a call answers with so many steps left, and the steps left then.
fn told(
    rt: &impl Abort,
    alloc: Global,
    name: &str,
    number: i64,
    args: &[Value],
    left: u64,
    heap: &mut Heap,
    names: &Names,
) -> Result<(String, u64), Fail>
    requires held { All (IsIn (sizes_of heap.old)) args.now }
    requires named { heap.old.names ≤ length names.now }
{
    let mut meter = Meter { left, depth: 0 };
    let row = row(rt, name);
    let end = integer::apply(alloc, row, number, args, heap, names, &mut meter)?;
    Ok((outcome(alloc, &end, heap, names)?, meter.left))
}

fn try_integers(
    rt: &impl Abort,
    alloc: Global,
    name: &str,
    number: i64,
    args: &[i64],
    wanted: &str,
) -> Result<(), Fail> {
    let mut names = Names::new(alloc)?;
    let mut heap = Heap::new(alloc, &mut names)?;
    let (made, _) = match args {
        [] => told(rt, alloc, name, number, &[], 9, &mut heap, &names)?,
        [a] => told(
            rt,
            alloc,
            name,
            number,
            &[Value::Int(*a)],
            9,
            &mut heap,
            &names,
        )?,
        [a, b, ..] => {
            let args = [Value::Int(*a), Value::Int(*b)];
            told(rt, alloc, name, number, &args, 9, &mut heap, &names)?
        }
    };
    assert!(rt;
        made.as_str() == wanted,
        "{name} at {number}: {made}, not {wanted}"
    );
    Ok(())
}

fn try_all(rt: &impl Abort, alloc: Global, rows: &[Row]) -> Result<(), Fail> {
    for (name, number, args, wanted) in rows {
        try_integers(rt, alloc, name, *number, args, wanted)?;
    }
    Ok(())
}

#[test]
fn methods_without_arguments(rt: HostRuntime) -> Result<(), Fail> {
    try_all(&rt, rt.alloc(), ALONE)
}

#[test]
fn arithmetic_is_exact_or_out_of_range(rt: HostRuntime) -> Result<(), Fail> {
    try_all(&rt, rt.alloc(), ARITHMETIC)
}

#[test]
fn integers_are_ordered(rt: HostRuntime) -> Result<(), Fail> {
    try_all(&rt, rt.alloc(), ORDER)
}

#[test]
fn bounds_are_among_the_numbers_between_them(rt: HostRuntime) -> Result<(), Fail> {
    try_all(&rt, rt.alloc(), BOUNDS)
}

/// Faults of integers.
const FAULTS: &[Row] = &[
    (
        "clamp",
        5,
        &[9, 1],
        "! ArgumentError: min argument must be less than or equal to max argument",
    ),
    (
        "clamp",
        5,
        &[i64::MAX, i64::MIN],
        "! ArgumentError: min argument must be less than or equal to max argument",
    ),
    (
        "+",
        1,
        &[],
        "! ArgumentError: wrong number of arguments (given 0, expected 1)",
    ),
    (
        "+",
        1,
        &[2, 3],
        "! ArgumentError: wrong number of arguments (given 2, expected 1)",
    ),
    (
        "abs",
        1,
        &[2],
        "! ArgumentError: wrong number of arguments (given 1, expected 0)",
    ),
    (
        "to_i",
        1,
        &[2],
        "! ArgumentError: wrong number of arguments (given 1, expected 0)",
    ),
    (
        "<=>",
        1,
        &[],
        "! ArgumentError: wrong number of arguments (given 0, expected 1)",
    ),
    (
        "clamp",
        1,
        &[2],
        "! ArgumentError: wrong number of arguments (given 1, expected 2)",
    ),
    (
        "between?",
        1,
        &[],
        "! ArgumentError: wrong number of arguments (given 0, expected 2)",
    ),
    (
        "divmod",
        1,
        &[],
        "! ArgumentError: wrong number of arguments (given 0, expected 1)",
    ),
];

#[test]
fn numbers_of_arguments_are_tested(rt: HostRuntime) -> Result<(), Fail> {
    try_all(&rt, rt.alloc(), FAULTS)
}

/// A method with one argument that is no integer, and what it answers.
fn try_value(
    rt: &impl Abort,
    alloc: Global,
    name: &str,
    value: Value,
    wanted: &str,
    heap: &mut Heap,
    names: &Names,
) -> Result<(), Fail>
    requires held { IsIn (sizes_of heap.old) value }
    requires named { heap.old.names ≤ length names.now }
{
    let (made, left) = told(rt, alloc, name, 7, &[value], 9, heap, names)?;
    assert!(rt; made.as_str() == wanted, "{name}: {made}, not {wanted}");
    assert!(rt; left == 9, "{name}: {left} steps left");
    Ok(())
}

fn try_constant(
    rt: &impl Abort,
    alloc: Global,
    name: &str,
    value: bool,
    wanted: &str,
) -> Result<(), Fail> {
    let mut names = Names::new(alloc)?;
    let mut heap = Heap::new(alloc, &mut names)?;
    let value = if value { Value::True } else { Value::Nil };
    try_value(rt, alloc, name, value, wanted, &mut heap, &names)
}

/// Methods, true or else nil as their argument, and what they answer.
const CONSTANTS: &[(&str, bool, &str)] = &[
    (
        "+",
        false,
        "! TypeError: wrong argument type NilClass (expected Integer)",
    ),
    (
        "-",
        true,
        "! TypeError: wrong argument type TrueClass (expected Integer)",
    ),
    (
        "*",
        false,
        "! TypeError: wrong argument type NilClass (expected Integer)",
    ),
    (
        "/",
        true,
        "! TypeError: wrong argument type TrueClass (expected Integer)",
    ),
    (
        "%",
        false,
        "! TypeError: wrong argument type NilClass (expected Integer)",
    ),
    (
        "divmod",
        true,
        "! TypeError: wrong argument type TrueClass (expected Integer)",
    ),
    (
        "<",
        false,
        "! ArgumentError: comparison of Integer with NilClass failed",
    ),
    (
        "<=",
        true,
        "! ArgumentError: comparison of Integer with TrueClass failed",
    ),
    (
        ">",
        false,
        "! ArgumentError: comparison of Integer with NilClass failed",
    ),
    (
        ">=",
        true,
        "! ArgumentError: comparison of Integer with TrueClass failed",
    ),
    ("<=>", false, "nil"),
    ("<=>", true, "nil"),
    (
        "between?",
        false,
        "! ArgumentError: wrong number of arguments (given 1, expected 2)",
    ),
];

#[test]
fn arguments_are_integers(rt: HostRuntime) -> Result<(), Fail> {
    for (name, value, wanted) in CONSTANTS {
        try_constant(&rt, rt.alloc(), name, *value, wanted)?;
    }
    Ok(())
}

fn try_text(rt: &impl Abort, alloc: Global, name: &str, wanted: &str) -> Result<(), Fail> {
    let mut names = Names::new(alloc)?;
    let mut heap = Heap::new(alloc, &mut names)?;
    let text = heap.make_text("x")?;
    try_value(
        rt,
        alloc,
        name,
        Value::Text(text),
        wanted,
        &mut heap,
        &names,
    )
}

fn try_symbol(rt: &impl Abort, alloc: Global, name: &str, wanted: &str) -> Result<(), Fail> {
    let mut names = Names::new(alloc)?;
    let symbol = names.intern("x")?;
    let mut heap = Heap::new(alloc, &mut names)?;
    try_value(
        rt,
        alloc,
        name,
        Value::Sym(symbol),
        wanted,
        &mut heap,
        &names,
    )
}

fn try_array(rt: &impl Abort, alloc: Global, name: &str, wanted: &str) -> Result<(), Fail> {
    let mut names = Names::new(alloc)?;
    let mut heap = Heap::new(alloc, &mut names)?;
    let array = heap.make_array(&[Value::Int(1)])?;
    try_value(
        rt,
        alloc,
        name,
        Value::Array(array),
        wanted,
        &mut heap,
        &names,
    )
}

fn try_module(
    rt: &impl Abort,
    alloc: Global,
    name: &str,
    module: CoreClass,
    wanted: &str,
) -> Result<(), Fail> {
    let mut names = Names::new(alloc)?;
    let mut heap = Heap::new(alloc, &mut names)?;
    let module = heap.core(module);
    try_value(
        rt,
        alloc,
        name,
        Value::Module(module),
        wanted,
        &mut heap,
        &names,
    )
}

fn try_main(rt: &impl Abort, alloc: Global, name: &str, wanted: &str) -> Result<(), Fail> {
    let mut names = Names::new(alloc)?;
    let mut heap = Heap::new(alloc, &mut names)?;
    let main = heap.main();
    try_value(
        rt,
        alloc,
        name,
        Value::Object(main),
        wanted,
        &mut heap,
        &names,
    )
}

#[test]
fn a_fault_tells_the_class_of_an_argument(rt: HostRuntime) -> Result<(), Fail> {
    let alloc = rt.alloc();
    try_text(
        &rt,
        alloc,
        "+",
        "! TypeError: wrong argument type String (expected Integer)",
    )?;
    try_symbol(
        &rt,
        alloc,
        "%",
        "! TypeError: wrong argument type Symbol (expected Integer)",
    )?;
    try_array(
        &rt,
        alloc,
        "/",
        "! TypeError: wrong argument type Array (expected Integer)",
    )?;
    try_main(
        &rt,
        alloc,
        "*",
        "! TypeError: wrong argument type Object (expected Integer)",
    )?;
    let wanted = "! TypeError: wrong argument type Class (expected Integer)";
    try_module(&rt, alloc, "-", CoreClass::Integer, wanted)?;
    let wanted = "! TypeError: wrong argument type Module (expected Integer)";
    try_module(&rt, alloc, "divmod", CoreClass::Kernel, wanted)
}

#[test]
fn a_comparison_tells_both_classes(rt: HostRuntime) -> Result<(), Fail> {
    let alloc = rt.alloc();
    try_text(
        &rt,
        alloc,
        "<",
        "! ArgumentError: comparison of Integer with String failed",
    )?;
    try_symbol(
        &rt,
        alloc,
        ">",
        "! ArgumentError: comparison of Integer with Symbol failed",
    )?;
    try_array(
        &rt,
        alloc,
        "<=",
        "! ArgumentError: comparison of Integer with Array failed",
    )?;
    try_main(
        &rt,
        alloc,
        ">=",
        "! ArgumentError: comparison of Integer with Object failed",
    )?;
    try_text(&rt, alloc, "<=>", "nil")?;
    try_array(&rt, alloc, "<=>", "nil")
}

fn try_steps(
    rt: &impl Abort,
    alloc: Global,
    numbers: (i64, i64),
    left: u64,
    wanted: &str,
    later: u64,
) -> Result<(), Fail> {
    let mut names = Names::new(alloc)?;
    let mut heap = Heap::new(alloc, &mut names)?;
    let args = [Value::Int(numbers.1)];
    let (made, left) = told(
        rt, alloc, "divmod", numbers.0, &args, left, &mut heap, &names,
    )?;
    assert!(rt; made.as_str() == wanted, "divmod: {made}, not {wanted}");
    assert!(rt; left == later, "divmod: {left} steps left");
    Ok(())
}

#[test]
fn the_array_of_divmod_costs_two_steps(rt: HostRuntime) -> Result<(), Fail> {
    let alloc = rt.alloc();
    try_steps(&rt, alloc, (7, 2), 3, "[3, 1]", 1)?;
    try_steps(&rt, alloc, (7, 2), 2, "[3, 1]", 0)?;
    try_steps(&rt, alloc, (7, 2), 1, "budget", 1)?;
    try_steps(&rt, alloc, (7, 2), 0, "budget", 0)?;
    try_steps(
        &rt,
        alloc,
        (7, 0),
        0,
        "! ZeroDivisionError: divided by 0",
        0,
    )?;
    try_steps(
        &rt,
        alloc,
        (i64::MIN, -1),
        0,
        "! RangeError: integer out of range",
        0,
    )
}
