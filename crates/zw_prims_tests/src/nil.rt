//! Methods of NilClass.

use crate::outcome::outcome;
use std::alloc::Global;
use std::process::Abort;
use std::test::Fail;
use zw_calls::{NilRow, PrimId, prim};
use zw_heap::{CoreClass, Heap, Value};
use zw_meter::Meter;
use zw_names::Names;
use zw_prims::nil;

fn row(rt: &impl Abort, name: &str) -> NilRow {
    match prim(CoreClass::NilClass, name) {
        Some(PrimId::Nil(row)) => row,
        _ => panic!(rt; "no method {name}"),
    }
}

fn try_row(
    rt: &impl Abort,
    alloc: Global,
    name: &str,
    args: &[i64],
    wanted: &str,
) -> Result<(), Fail> {
    let mut names = Names::new(alloc)?;
    let mut heap = Heap::new(alloc, &mut names)?;
    let mut meter = Meter { left: 0, depth: 0 };
    let row = row(rt, name);
    let end = match args {
        [] => nil::apply(alloc, row, &[], &mut heap, &names, &mut meter)?,
        [a, ..] => nil::apply(alloc, row, &[Value::Int(*a)], &mut heap, &names, &mut meter)?,
    };
    let made = outcome(alloc, &end, &heap, &names)?;
    assert!(rt; made.as_str() == wanted, "{name}: {made}, not {wanted}");
    Ok(())
}

#[test]
fn nil_is_0_or_empty(rt: HostRuntime) -> Result<(), Fail> {
    let alloc = rt.alloc();
    try_row(&rt, alloc, "to_i", &[], "0")?;
    try_row(&rt, alloc, "to_a", &[], "[]")?;
    let wanted = "! ArgumentError: wrong number of arguments (given 1, expected 0)";
    try_row(&rt, alloc, "to_i", &[1], wanted)?;
    try_row(&rt, alloc, "to_a", &[1], wanted)
}
