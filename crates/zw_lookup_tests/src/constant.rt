//! Constants: what is set in one module's table, and the modules that are asked.

use crate::plan::{letters_of, made_by, module_of, modules_of};
use std::alloc::Global;
use std::process::Abort;
use std::test::Fail;
use zw_consts::{Consts, Slot, walk, walk_below};
use zw_heap::Value;
use zw_names::{EntryId, Names};

#[test]
fn a_slot_is_set_in_one_table_and_cleared(rt: HostRuntime) -> Result<(), Fail> {
    let mut names = Names::new(rt.alloc())?;
    let (x, y) = (names.intern("X")?, names.intern("Y")?);
    let made = made_by(&rt, rt.alloc(), "mM- mN-")?;
    let (m, n) = (module_of(&rt, &made, b'M'), module_of(&rt, &made, b'N'));
    let mut consts = Consts::new(rt.alloc())?;
    let seven = Slot::Value(Value::Int(7));
    consts.set(n, x, seven)?;
    consts.set(n, y, Slot::Entry(EntryId(3)))?;
    assert!(rt;
        consts.slot(n, x) == Some(seven) && consts.slot(n, y) == Some(Slot::Entry(EntryId(3)))
    );
    assert!(rt; consts.slot(m, x).is_none());
    consts.set(n, x, Slot::Value(Value::Nil))?;
    consts.clear(n, y);
    consts.clear(m, x);
    assert!(rt; consts.slot(n, x) == Some(Slot::Value(Value::Nil)) && consts.slot(n, y).is_none());
    Ok(())
}

#[test]
fn a_copy_has_the_tables_of_the_heap_alone(rt: HostRuntime) -> Result<(), Fail> {
    let mut names = Names::new(rt.alloc())?;
    let x = names.intern("X")?;
    let small = made_by(&rt, rt.alloc(), "mM-")?;
    let large = made_by(&rt, rt.alloc(), "mM- mN-")?;
    let (m, n) = (module_of(&rt, &large, b'M'), module_of(&rt, &large, b'N'));
    let mut consts = Consts::new(rt.alloc())?;
    let seven = Slot::Value(Value::Int(7));
    consts.set(m, x, seven)?;
    consts.set(n, x, seven)?;
    let copy = consts.copy_boot(&small.heap)?;
    assert!(rt; copy.slot(m, x) == Some(seven) && copy.slot(n, x).is_none());
    let copy = consts.copy_boot(&large.heap)?;
    assert!(rt; copy.slot(n, x) == Some(seven));
    Ok(())
}

/// The modules that an unscoped name is asked of in these scopes, the innermost first.
fn try_walk(
    rt: &impl Abort,
    alloc: Global,
    plan: &str,
    scopes: &[u8],
    wanted: &str,
) -> Result<(), Fail> {
    let made = made_by(rt, alloc, plan)?;
    let modules = modules_of(rt, alloc, &made, scopes)?;
    let asked = walk(alloc, &made.heap, &modules)?;
    let told = letters_of(alloc, &made, &asked)?;
    assert!(rt; told.as_str() == wanted, "at {wanted}");
    Ok(())
}

#[test]
fn the_scopes_are_asked_first(rt: HostRuntime) -> Result<(), Fail> {
    let plan = "mN- mM-N cB-N cABM";
    try_walk(&rt, rt.alloc(), plan, b"A", "AAMBNOK")?;
    try_walk(&rt, rt.alloc(), plan, b"AB", "ABAMBNOK")?;
    try_walk(&rt, rt.alloc(), plan, b"AOB", "ABAMBNOK")?;
    try_walk(&rt, rt.alloc(), plan, b"", "OK")
}

#[test]
fn object_is_asked_last_in_a_module(rt: HostRuntime) -> Result<(), Fail> {
    try_walk(&rt, rt.alloc(), "mN- mM-N", b"M", "MMNO")?;
    try_walk(&rt, rt.alloc(), "mN- mM-N cA-", b"NA", "NANO")?;
    try_walk(&rt, rt.alloc(), "mN-", b"O", "OK")
}

fn try_below(rt: &impl Abort, alloc: Global, plan: &str, of: u8, wanted: &str) -> Result<(), Fail> {
    let made = made_by(rt, alloc, plan)?;
    let asked = walk_below(alloc, &made.heap, module_of(rt, &made, of))?;
    let told = letters_of(alloc, &made, &asked)?;
    assert!(rt; told.as_str() == wanted, "at {wanted}");
    Ok(())
}

#[test]
fn object_is_asked_for_no_scoped_name_but_its_own(rt: HostRuntime) -> Result<(), Fail> {
    try_below(&rt, rt.alloc(), "mN- mM-N cB-N cABM", b'A', "AMBN")?;
    try_below(&rt, rt.alloc(), "mN- mM-N", b'M', "MN")?;
    try_below(&rt, rt.alloc(), "cA-", b'O', "OK")?;
    try_below(&rt, rt.alloc(), "cA-", b'K', "")
}

#[test]
fn the_innermost_scope_that_has_it_is_found(rt: HostRuntime) -> Result<(), Fail> {
    let mut names = Names::new(rt.alloc())?;
    let x = names.intern("X")?;
    let made = made_by(&rt, rt.alloc(), "mM- mN-")?;
    let (m, n) = (module_of(&rt, &made, b'M'), module_of(&rt, &made, b'N'));
    let object = module_of(&rt, &made, b'O');
    let mut consts = Consts::new(rt.alloc())?;
    consts.set(object, x, Slot::Value(Value::Int(1)))?;
    assert!(rt;
        consts
            .slot_in_scopes(&made.heap, &[m, object, n], x)
            .is_none()
    );
    consts.set(n, x, Slot::Value(Value::Int(2)))?;
    let found = consts.slot_in_scopes(&made.heap, &[m, object, n], x);
    assert!(rt; found.is_some_and(|p| p.at == n && p.slot == Slot::Value(Value::Int(2))));
    Ok(())
}
