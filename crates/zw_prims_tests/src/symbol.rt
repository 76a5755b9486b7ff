//! Methods of Symbol.
ghost use Rattle.std.specs.Prelude.{◌≤◌, length};
ghost use Rattle.std.specs.List.{All};
ghost use Rattle.zw_heap.specs.Heap.{sizes_of};
ghost use Rattle.zw_heap.specs.Sound.{IsIn};
ghost use Rattle.zw_heap.specs.declared.value.Value.TheVariants.{Sym as SymbolValue};

use crate::outcome::outcome;
use crate::symbol_table::COMPARED;
use std::alloc::Global;
use std::process::Abort;
use std::test::Fail;
use zw_calls::{PrimId, SymbolRow, prim};
use zw_heap::{CoreClass, Heap, Value};
use zw_names::{Name, Names};
use zw_strings::symbol;

fn row(rt: &impl Abort, name: &str) -> SymbolRow {
    match prim(CoreClass::Symbol, name) {
        Some(PrimId::Symbol(row)) => row,
        _ => panic!(rt; "no method {name}"),
    }
}

fn try_values(
    rt: &impl Abort,
    alloc: Global,
    name: &str,
    receiver: Name,
    args: &[Value],
    wanted: &str,
    heap: &Heap,
    names: &Names,
) -> Result<(), Fail>
    requires receiver { IsIn (sizes_of heap.now) (SymbolValue receiver) }
    requires held { All (IsIn (sizes_of heap.now)) args.now }
    requires named { heap.now.names ≤ length names.now }
{
    let end = symbol::apply(alloc, row(rt, name), receiver, args, heap, names)?;
    let made = outcome(alloc, &end, heap, names)?;
    assert!(rt; made.as_str() == wanted, "{name}: {made}, not {wanted}");
    Ok(())
}

fn try_alone(
    rt: &impl Abort,
    alloc: Global,
    name: &str,
    text: &str,
    wanted: &str,
) -> Result<(), Fail> {
    let mut names = Names::new(alloc)?;
    let symbol = names.intern(text)?;
    let heap = Heap::new(alloc, &mut names)?;
    try_values(rt, alloc, name, symbol, &[], wanted, &heap, &names)
}

fn try_pair(
    rt: &impl Abort,
    alloc: Global,
    one: &str,
    other: &str,
    wanted: &str,
) -> Result<(), Fail> {
    let mut names = Names::new(alloc)?;
    let one = names.intern(one)?;
    let other = names.intern(other)?;
    let heap = Heap::new(alloc, &mut names)?;
    try_values(
        rt,
        alloc,
        "<=>",
        one,
        &[Value::Sym(other)],
        wanted,
        &heap,
        &names,
    )
}

fn try_value(
    rt: &impl Abort,
    alloc: Global,
    name: &str,
    number: Option<i64>,
    wanted: &str,
) -> Result<(), Fail> {
    let mut names = Names::new(alloc)?;
    let symbol = names.intern("x")?;
    let heap = Heap::new(alloc, &mut names)?;
    let value = match number {
        Some(number) => Value::Int(number),
        None => Value::Nil,
    };
    try_values(rt, alloc, name, symbol, &[value], wanted, &heap, &names)
}

#[test]
fn names_are_compared_by_their_bytes(rt: HostRuntime) -> Result<(), Fail> {
    for (one, other, wanted) in COMPARED {
        try_pair(&rt, rt.alloc(), one, other, wanted)?;
    }
    try_value(&rt, rt.alloc(), "<=>", None, "nil")?;
    try_value(&rt, rt.alloc(), "<=>", Some(1), "nil")
}

#[test]
fn a_symbol_has_a_size_in_characters(rt: HostRuntime) -> Result<(), Fail> {
    let alloc = rt.alloc();
    try_alone(&rt, alloc, "size", "été", "3")?;
    try_alone(&rt, alloc, "size", "", "0")?;
    try_alone(&rt, alloc, "to_sym", "a b", ":\"a b\"")
}

#[test]
fn numbers_of_arguments_are_tested(rt: HostRuntime) -> Result<(), Fail> {
    let alloc = rt.alloc();
    let wanted = "! ArgumentError: wrong number of arguments (given 1, expected 0)";
    try_value(&rt, alloc, "size", None, wanted)?;
    try_value(&rt, alloc, "to_sym", None, wanted)?;
    let wanted = "! ArgumentError: wrong number of arguments (given 0, expected 1)";
    try_alone(&rt, alloc, "<=>", "a", wanted)
}
