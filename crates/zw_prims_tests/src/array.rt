//! Methods of Array.
ghost use Rattle.std.specs.Prelude.{◌≤◌, ◌<◌, length};
ghost use Rattle.std.specs.List.{All};
ghost use Rattle.zw_heap.specs.Heap.{sizes_of};
ghost use Rattle.zw_heap.specs.Sound.{IsIn};

use crate::array_table::{ALONE, BOTH, FOUND, JOINED, PLACES, Row, SUMS};
use crate::item::Item::{Int, Nil, Numbers, Symbol, Text, True};
use crate::item::{Item, values};
use crate::outcome::outcome;
use std::alloc::Global;
use std::process::Abort;
use std::test::Fail;
use zw_arrays::array;
use zw_calls::{ArrayRow, PrimId, prim};
use zw_heap::{ArrayRef, CoreClass, Heap, Value};
use zw_meter::Meter;
use zw_names::Names;

/// More steps than a row costs.
const ENOUGH: u64 = 1_000;

fn row(rt: &impl Abort, name: &str) -> ArrayRow {
    match prim(CoreClass::Array, name) {
        Some(PrimId::Array(row)) => row,
        _ => panic!(rt; "no method {name}"),
    }
}

/// What a call answers with so many steps left, and the steps left then.
fn told(
    rt: &impl Abort,
    alloc: Global,
    name: &str,
    receiver: ArrayRef,
    args: &[Value],
    left: u64,
    heap: &mut Heap,
    names: &Names,
) -> Result<(String, u64), Fail>
    requires receiver { receiver.0 < length heap.old.arrays }
    requires held { All (IsIn (sizes_of heap.old)) args.now }
    requires named { heap.old.names ≤ length names.now }
{
    let mut meter = Meter { left, depth: 0 };
    let row = row(rt, name);
    let end = array::apply(alloc, row, receiver, args, heap, names, &mut meter)?;
    Ok((outcome(alloc, &end, heap, names)?, meter.left))
}

/// What a row answers with so many steps left, and the steps left then.
fn answered(
    rt: &impl Abort,
    alloc: Global,
    name: &str,
    items: &[Item],
    args: &[Item],
    left: u64,
) -> Result<(String, u64), Fail> {
    let mut names = Names::new(alloc)?;
    let mut heap = Heap::new(alloc, &mut names)?;
    let items = values(alloc, items, &mut heap, &mut names)?;
    let receiver = heap.make_array(items.as_slice())?;
    let args = values(alloc, args, &mut heap, &mut names)?;
    told(
        rt,
        alloc,
        name,
        receiver,
        args.as_slice(),
        left,
        &mut heap,
        &names,
    )
}

fn try_all(rt: &impl Abort, alloc: Global, rows: &[Row]) -> Result<(), Fail> {
    for (name, items, args, wanted) in rows {
        let (made, _) = answered(rt, alloc, name, items, args, ENOUGH)?;
        assert!(rt; made.as_str() == *wanted, "{name}: {made}, not {wanted}");
    }
    Ok(())
}

#[test]
fn methods_without_arguments(rt: HostRuntime) -> Result<(), Fail> {
    try_all(&rt, rt.alloc(), ALONE)
}

#[test]
fn places_and_counts(rt: HostRuntime) -> Result<(), Fail> {
    try_all(&rt, rt.alloc(), PLACES)
}

#[test]
fn values_are_found_by_content(rt: HostRuntime) -> Result<(), Fail> {
    try_all(&rt, rt.alloc(), FOUND)
}

#[test]
fn arrays_are_added_and_taken_away(rt: HostRuntime) -> Result<(), Fail> {
    try_all(&rt, rt.alloc(), BOTH)
}

#[test]
fn sums_are_exact_or_out_of_range(rt: HostRuntime) -> Result<(), Fail> {
    try_all(&rt, rt.alloc(), SUMS)
}

#[test]
fn texts_are_joined(rt: HostRuntime) -> Result<(), Fail> {
    try_all(&rt, rt.alloc(), JOINED)
}

/// What the language answers in its own way, written down by hand.
const OWN: &[Row] = &[
    (
        "join",
        &[Numbers(&[1, 2]), Int(3)],
        &[Text("-")],
        "\"[1, 2]-3\"",
    ),
    (
        "take",
        &[Int(1)],
        &[Int(-1)],
        "! ArgumentError: argument must be non-negative",
    ),
    (
        "drop",
        &[Int(1)],
        &[Int(i64::MIN)],
        "! ArgumentError: argument must be non-negative",
    ),
    ("take", &[Int(1)], &[Int(i64::MAX)], "[1]"),
    ("drop", &[Int(1)], &[Int(i64::MAX)], "[]"),
    (
        "sum",
        &[Int(i64::MAX), Int(1), Nil],
        &[],
        "! TypeError: wrong argument type NilClass (expected Integer)",
    ),
    (
        "sum",
        &[True, Text("a")],
        &[],
        "! TypeError: wrong argument type TrueClass (expected Integer)",
    ),
    (
        "sum",
        &[Numbers(&[1])],
        &[],
        "! TypeError: wrong argument type Array (expected Integer)",
    ),
    (
        "+",
        &[Int(1)],
        &[Int(2)],
        "! TypeError: wrong argument type Integer (expected Array)",
    ),
    (
        "-",
        &[Int(1)],
        &[Nil],
        "! TypeError: wrong argument type NilClass (expected Array)",
    ),
    (
        "[]",
        &[Int(1)],
        &[Text("0")],
        "! TypeError: wrong argument type String (expected Integer)",
    ),
    (
        "join",
        &[Int(1)],
        &[Symbol("a")],
        "! TypeError: wrong argument type Symbol (expected String)",
    ),
    (
        "take",
        &[Int(1)],
        &[Nil],
        "! TypeError: wrong argument type NilClass (expected Integer)",
    ),
    (
        "first",
        &[Int(1)],
        &[Int(1)],
        "! ArgumentError: wrong number of arguments (given 1, expected 0)",
    ),
    (
        "join",
        &[Int(1)],
        &[Text(""), Text("")],
        "! ArgumentError: wrong number of arguments (given 2, expected 0..1)",
    ),
    (
        "index",
        &[Int(1)],
        &[],
        "! ArgumentError: wrong number of arguments (given 0, expected 1)",
    ),
];

#[test]
fn own_answers(rt: HostRuntime) -> Result<(), Fail> {
    try_all(&rt, rt.alloc(), OWN)
}

/// A method, its receiver and its arguments, and the steps that it costs.
type Cost = (&'static str, &'static [Item], &'static [Item], u64);

/// A step for each comparison of two items, and for each item of an array that is made; for each 64 bytes of a text.
const COSTS: &[Cost] = &[
    ("size", &[Int(1), Int(2)], &[], 0),
    ("first", &[Int(1), Int(2)], &[], 0),
    ("sum", &[Int(1), Int(2)], &[], 0),
    ("include?", &[Int(1), Int(2), Int(3)], &[Int(2)], 2),
    ("include?", &[Int(1), Int(2), Int(3)], &[Int(4)], 3),
    ("index", &[Int(1), Int(2), Int(3)], &[Int(1)], 1),
    (
        "index",
        &[Numbers(&[1, 2]), Numbers(&[1, 3])],
        &[Numbers(&[1, 3])],
        6,
    ),
    ("index", &[Numbers(&[1, 2, 3])], &[Numbers(&[1, 2])], 1),
    ("reverse", &[Int(1), Int(2), Int(3)], &[], 3),
    ("+", &[Int(1), Int(2)], &[Numbers(&[1, 2, 3])], 5),
    ("take", &[Int(1), Int(2), Int(3)], &[Int(2)], 2),
    ("drop", &[Int(1), Int(2), Int(3)], &[Int(2)], 1),
    ("compact", &[Int(1), Nil, Int(3)], &[], 2),
    ("uniq", &[Int(1), Int(1), Int(2), Int(1)], &[], 5),
    ("-", &[Int(1), Int(2), Int(3)], &[Numbers(&[2, 3])], 6),
    ("join", &[Int(1), Int(2)], &[], 0),
];

#[test]
fn each_method_has_its_cost(rt: HostRuntime) -> Result<(), Fail> {
    let alloc = rt.alloc();
    for (name, items, args, cost) in COSTS {
        let (made, left) = answered(&rt, alloc, name, items, args, *cost)?;
        assert!(rt; made.as_str() != "budget", "{name} costs more than {cost}");
        assert!(rt; left == 0, "{name} leaves {left} of {cost}");
        if *cost > 0 {
            let (made, _) = answered(&rt, alloc, name, items, args, *cost - 1)?;
            assert!(rt; made.as_str() == "budget", "{name} costs less than {cost}");
        }
    }
    Ok(())
}
