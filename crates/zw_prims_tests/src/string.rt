//! Methods of String.
ghost use Rattle.std.specs.Prelude.{◌≤◌, length};
ghost use Rattle.std.specs.List.{All};
ghost use Rattle.zw_heap.specs.Heap.{sizes_of};
ghost use Rattle.zw_heap.specs.Sound.{IsIn};
ghost use Rattle.zw_heap.specs.declared.value.Value.TheVariants.{Text as TextValue};

use crate::item::{Item, values};
use crate::outcome::outcome;
use crate::string_table::{ALONE, PARTS, SPLIT, WITH_NUMBER, WITH_TEXT};
use std::alloc::Global;
use std::process::Abort;
use std::test::Fail;
use zw_calls::{PrimId, StringRow, prim};
use zw_heap::{CoreClass, Heap, TextRef, Value};
use zw_meter::Meter;
use zw_names::Names;
use zw_strings::string;

fn row(rt: &impl Abort, name: &str) -> StringRow {
    match prim(CoreClass::String, name) {
        Some(PrimId::String(row)) => row,
        _ => panic!(rt; "no method {name}"),
    }
}

/// The arguments of a call.
#[derive(Clone, Copy)]
enum Arguments {
    None,
    Nil,
    Text(&'static str),
    Symbol(&'static str),
    Integer(i64),
    Integers(i64, i64),
}

/// What a call answers with so many steps left, and the steps left then.
fn told(
    rt: &impl Abort,
    alloc: Global,
    name: &str,
    receiver: TextRef,
    args: &[Value],
    left: u64,
    heap: &mut Heap,
    names: &mut Names,
) -> Result<(String, u64), Fail>
    requires receiver { IsIn (sizes_of heap.old) (TextValue receiver) }
    requires held { All (IsIn (sizes_of heap.old)) args.now }
    requires named { heap.old.names ≤ length names.old }
{
    let mut meter = Meter { left, depth: 0 };
    let row = row(rt, name);
    let end = string::apply(alloc, row, receiver, args, heap, names, &mut meter)?;
    Ok((outcome(alloc, &end, heap, names)?, meter.left))
}

/// What a call with these arguments answers.
fn told_with(
    rt: &impl Abort,
    alloc: Global,
    name: &str,
    text: &str,
    args: &[Item],
    left: u64,
) -> Result<(String, u64), Fail> {
    let mut names = Names::new(alloc)?;
    let mut heap = Heap::new(alloc, &mut names)?;
    let receiver = heap.make_text(text)?;
    let args = values(alloc, args, &mut heap, &mut names)?;
    told(
        rt,
        alloc,
        name,
        receiver,
        args.as_slice(),
        left,
        &mut heap,
        &mut names,
    )
}

fn call(
    rt: &impl Abort,
    alloc: Global,
    name: &str,
    text: &str,
    args: &Arguments,
    left: u64,
) -> Result<(String, u64), Fail> {
    match args {
        Arguments::None => told_with(rt, alloc, name, text, &[], left),
        Arguments::Nil => told_with(rt, alloc, name, text, &[Item::Nil], left),
        Arguments::Text(other) => told_with(rt, alloc, name, text, &[Item::Text(other)], left),
        Arguments::Symbol(other) => told_with(rt, alloc, name, text, &[Item::Symbol(other)], left),
        Arguments::Integer(number) => told_with(rt, alloc, name, text, &[Item::Int(*number)], left),
        Arguments::Integers(first, second) => told_with(
            rt,
            alloc,
            name,
            text,
            &[Item::Int(*first), Item::Int(*second)],
            left,
        ),
    }
}

fn try_call(
    rt: &impl Abort,
    alloc: Global,
    name: &str,
    text: &str,
    args: &Arguments,
    wanted: &str,
) -> Result<(), Fail> {
    let (made, _) = call(rt, alloc, name, text, args, 999)?;
    assert!(rt;
        made.as_str() == wanted,
        "{name} of {text}: {made}, not {wanted}"
    );
    Ok(())
}

#[test]
fn methods_without_arguments(rt: HostRuntime) -> Result<(), Fail> {
    for (name, text, wanted) in ALONE {
        try_call(&rt, rt.alloc(), name, text, &Arguments::None, wanted)?;
    }
    Ok(())
}

#[test]
fn methods_with_a_text(rt: HostRuntime) -> Result<(), Fail> {
    for (name, text, other, wanted) in WITH_TEXT {
        try_call(
            &rt,
            rt.alloc(),
            name,
            text,
            &Arguments::Text(*other),
            wanted,
        )?;
    }
    Ok(())
}

#[test]
fn pieces_stand_between_separators(rt: HostRuntime) -> Result<(), Fail> {
    for (text, separator, wanted) in SPLIT {
        try_call(
            &rt,
            rt.alloc(),
            "split",
            text,
            &Arguments::Text(*separator),
            wanted,
        )?;
    }
    Ok(())
}

#[test]
fn methods_with_an_integer(rt: HostRuntime) -> Result<(), Fail> {
    for (name, text, number, wanted) in WITH_NUMBER {
        try_call(
            &rt,
            rt.alloc(),
            name,
            text,
            &Arguments::Integer(*number),
            wanted,
        )?;
    }
    Ok(())
}

#[test]
fn parts_begin_at_a_place_and_have_a_length(rt: HostRuntime) -> Result<(), Fail> {
    for (text, place, count, wanted) in PARTS {
        let args = Arguments::Integers(*place, *count);
        try_call(&rt, rt.alloc(), "[]", text, &args, wanted)?;
    }
    Ok(())
}

/// A method, its receiver, its arguments, and what it answers. Ruby answers otherwise, or with other words.
type Own = (&'static str, &'static str, Arguments, &'static str);

const OWN: &[Own] = &[
    ("to_i", "+5", Arguments::None, "0"),
    ("to_i", " 5", Arguments::None, "0"),
    ("to_i", "1_0", Arguments::None, "1"),
    (
        "to_i",
        "9223372036854775808",
        Arguments::None,
        "! RangeError: integer out of range",
    ),
    (
        "to_i",
        "-9223372036854775809",
        Arguments::None,
        "! RangeError: integer out of range",
    ),
    (
        "to_i",
        "18446744073709551616",
        Arguments::None,
        "! RangeError: integer out of range",
    ),
    (
        "to_i",
        "000000000000000000000000000001x",
        Arguments::None,
        "1",
    ),
    ("to_sym", "a", Arguments::None, ":a"),
    ("to_sym", "a ", Arguments::None, ":\"a \""),
    ("to_sym", "a#b", Arguments::None, ":\"a#b\""),
    ("to_sym", "", Arguments::None, ":\"\""),
    ("to_sym", "Object", Arguments::None, ":Object"),
    (
        "*",
        "ab",
        Arguments::Integer(-1),
        "! ArgumentError: argument must be non-negative",
    ),
    (
        "*",
        "",
        Arguments::Integer(i64::MIN),
        "! ArgumentError: argument must be non-negative",
    ),
    ("*", "", Arguments::Integer(i64::MAX), "\"\""),
    (
        "*",
        "ab",
        Arguments::Integer(i64::MAX),
        "! RangeError: text too long",
    ),
    (
        "*",
        "ab",
        Arguments::Integer(524_289),
        "! RangeError: text too long",
    ),
    (
        "ljust",
        "ab",
        Arguments::Integer(i64::MAX),
        "! RangeError: text too long",
    ),
    (
        "rjust",
        "日",
        Arguments::Integer(1_048_575),
        "! RangeError: text too long",
    ),
    (
        "split",
        "ab",
        Arguments::Text(""),
        "! ArgumentError: empty separator",
    ),
    (
        "split",
        "",
        Arguments::Text(""),
        "! ArgumentError: empty separator",
    ),
    ("<=>", "a", Arguments::Symbol("a"), "nil"),
    ("<=>", "a", Arguments::Integer(1), "nil"),
    (
        "+",
        "a",
        Arguments::Symbol("a"),
        "! TypeError: wrong argument type Symbol (expected String)",
    ),
    (
        "+",
        "a",
        Arguments::Nil,
        "! TypeError: wrong argument type NilClass (expected String)",
    ),
    (
        "*",
        "a",
        Arguments::Text("a"),
        "! TypeError: wrong argument type String (expected Integer)",
    ),
    (
        "<",
        "a",
        Arguments::Nil,
        "! ArgumentError: comparison of String with NilClass failed",
    ),
    (
        "<=",
        "a",
        Arguments::Symbol("a"),
        "! ArgumentError: comparison of String with Symbol failed",
    ),
    (
        ">",
        "a",
        Arguments::Integer(1),
        "! ArgumentError: comparison of String with Integer failed",
    ),
    (
        ">=",
        "a",
        Arguments::Nil,
        "! ArgumentError: comparison of String with NilClass failed",
    ),
    (
        "include?",
        "a",
        Arguments::Nil,
        "! TypeError: wrong argument type NilClass (expected String)",
    ),
    (
        "start_with?",
        "a",
        Arguments::Nil,
        "! TypeError: wrong argument type NilClass (expected String)",
    ),
    (
        "end_with?",
        "a",
        Arguments::Nil,
        "! TypeError: wrong argument type NilClass (expected String)",
    ),
    (
        "[]",
        "a",
        Arguments::Nil,
        "! TypeError: wrong argument type NilClass (expected Integer)",
    ),
    (
        "[]",
        "a",
        Arguments::None,
        "! ArgumentError: wrong number of arguments (given 0, expected 1..2)",
    ),
    (
        "split",
        "a",
        Arguments::Nil,
        "! TypeError: wrong argument type NilClass (expected String)",
    ),
    (
        "ljust",
        "a",
        Arguments::Nil,
        "! TypeError: wrong argument type NilClass (expected Integer)",
    ),
    (
        "rjust",
        "a",
        Arguments::Nil,
        "! TypeError: wrong argument type NilClass (expected Integer)",
    ),
    (
        "delete_prefix",
        "a",
        Arguments::Nil,
        "! TypeError: wrong argument type NilClass (expected String)",
    ),
    (
        "delete_suffix",
        "a",
        Arguments::Nil,
        "! TypeError: wrong argument type NilClass (expected String)",
    ),
    (
        "size",
        "a",
        Arguments::Nil,
        "! ArgumentError: wrong number of arguments (given 1, expected 0)",
    ),
    (
        "chars",
        "a",
        Arguments::Integers(1, 2),
        "! ArgumentError: wrong number of arguments (given 2, expected 0)",
    ),
    (
        "to_sym",
        "a",
        Arguments::Nil,
        "! ArgumentError: wrong number of arguments (given 1, expected 0)",
    ),
];

#[test]
fn methods_by_hand(rt: HostRuntime) -> Result<(), Fail> {
    for (name, text, args, wanted) in OWN {
        try_call(&rt, rt.alloc(), name, text, args, wanted)?;
    }
    Ok(())
}

/// A text of 64 bytes.
const ROW: &str = "0123456789abcdef0123456789abcdef0123456789abcdef0123456789abcdef";

/// A method of that text, its arguments, the steps that are left, and how many of them stay.
type Steps = (&'static str, Arguments, u64, Option<u64>);

const STEPS: &[Steps] = &[
    ("upcase", Arguments::None, 1, Some(0)),
    ("upcase", Arguments::None, 0, None),
    ("reverse", Arguments::None, 2, Some(1)),
    ("+", Arguments::Text("x"), 1, Some(0)),
    ("+", Arguments::Text("x"), 0, None),
    ("*", Arguments::Integer(3), 3, Some(0)),
    ("*", Arguments::Integer(3), 2, None),
    ("*", Arguments::Integer(0), 0, Some(0)),
    ("*", Arguments::Integer(99_999), 0, Some(0)),
    ("[]", Arguments::Integer(3), 0, Some(0)),
    ("[]", Arguments::Integers(0, 99), 0, None),
    ("delete_prefix", Arguments::Text("0"), 0, Some(0)),
    ("ljust", Arguments::Integer(128), 2, Some(0)),
    ("ljust", Arguments::Integer(128), 1, None),
    ("chars", Arguments::None, 64, Some(0)),
    ("chars", Arguments::None, 63, None),
    ("split", Arguments::Text(","), 2, Some(0)),
    ("split", Arguments::Text("f"), 4, Some(0)),
    ("split", Arguments::Text("f"), 3, None),
    ("size", Arguments::None, 0, Some(0)),
    ("to_sym", Arguments::None, 0, Some(0)),
    ("split", Arguments::Text(""), 0, Some(0)),
];

#[test]
fn a_step_is_paid_for_each_64_bytes_and_each_item(rt: HostRuntime) -> Result<(), Fail> {
    for (name, args, left, later) in STEPS {
        let (made, stays) = call(&rt, rt.alloc(), name, ROW, args, *left)?;
        let wanted = later.unwrap_or(*left);
        let ended = made.as_str() == "budget";
        assert!(rt; ended == later.is_none(), "{name} with {left}: {made}");
        assert!(rt; stays == wanted, "{name} with {left}: {stays} steps stay");
    }
    Ok(())
}

#[test]
fn pieces_are_paid_before_their_array(rt: HostRuntime) -> Result<(), Fail> {
    let (made, left) = call(&rt, rt.alloc(), "split", ROW, &Arguments::Text(","), 1)?;
    assert!(rt;
        made.as_str() == "budget" && left == 0,
        "split: {made}, {left} steps left"
    );
    Ok(())
}
