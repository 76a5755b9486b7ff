//! Methods of Module and Class.
use crate::call::answered;
use std::alloc::Global;
use std::process::Abort;
use std::test::Fail;
use zw_calls::{ClassRow, ModuleRow, PrimId};
use zw_heap::{CoreClass, Heap, ModuleKind, Value};
use zw_names::Names;

/// Core classes and modules, their paths, and the superclasses of classes.
const CLASSES: &[(CoreClass, &str, &str)] = &[
    (CoreClass::Object, "Object", "nil"),
    (CoreClass::Kernel, "Kernel", "none"),
    (CoreClass::Module, "Module", "Object"),
    (CoreClass::Class, "Class", "Module"),
    (CoreClass::NilClass, "NilClass", "Object"),
    (CoreClass::TrueClass, "TrueClass", "Object"),
    (CoreClass::FalseClass, "FalseClass", "Object"),
    (CoreClass::Integer, "Integer", "Object"),
    (CoreClass::String, "String", "Object"),
    (CoreClass::Symbol, "Symbol", "Object"),
    (CoreClass::Array, "Array", "Object"),
    (CoreClass::Exception, "Exception", "Object"),
    (CoreClass::Zeitwerk, "Zeitwerk", "none"),
    (CoreClass::ScriptError, "ScriptError", "Exception"),
    (CoreClass::StandardError, "StandardError", "Exception"),
    (CoreClass::SyntaxError, "SyntaxError", "ScriptError"),
    (CoreClass::LoadError, "LoadError", "ScriptError"),
    (CoreClass::ArgumentError, "ArgumentError", "StandardError"),
    (CoreClass::IndexError, "IndexError", "StandardError"),
    (CoreClass::NameError, "NameError", "StandardError"),
    (CoreClass::RangeError, "RangeError", "StandardError"),
    (CoreClass::RuntimeError, "RuntimeError", "StandardError"),
    (CoreClass::TypeError, "TypeError", "StandardError"),
    (
        CoreClass::ZeroDivisionError,
        "ZeroDivisionError",
        "StandardError",
    ),
    (CoreClass::NoMethodError, "NoMethodError", "NameError"),
    (CoreClass::FrozenError, "FrozenError", "RuntimeError"),
    (CoreClass::ZeitwerkError, "Zeitwerk::Error", "StandardError"),
    (
        CoreClass::ReloadingDisabledError,
        "Zeitwerk::ReloadingDisabledError",
        "Zeitwerk::Error",
    ),
    (
        CoreClass::SetupRequired,
        "Zeitwerk::SetupRequired",
        "Zeitwerk::Error",
    ),
    (
        CoreClass::ZeitwerkNameError,
        "Zeitwerk::NameError",
        "NameError",
    ),
];

/// What a method of Module answers with no step left.
fn named(alloc: Global, row: ModuleRow, class: CoreClass, args: &[i64]) -> Result<String, Fail> {
    let mut names = Names::new(alloc)?;
    let mut heap = Heap::new(alloc, &mut names)?;
    let receiver = Value::Module(heap.core(class));
    let prim = PrimId::Module(row);
    let (made, _) = match args {
        [] => answered(alloc, prim, receiver, &[], 0, &mut heap, &mut names)?,
        [a, ..] => answered(
            alloc,
            prim,
            receiver,
            &[Value::Int(*a)],
            0,
            &mut heap,
            &mut names,
        )?,
    };
    Ok(made)
}

#[test]
fn a_module_is_told_by_its_path(rt: HostRuntime) -> Result<(), Fail> {
    let alloc = rt.alloc();
    for (class, path, _) in CLASSES {
        for row in &[ModuleRow::Name, ModuleRow::ToS, ModuleRow::Inspect] {
            let made = named(alloc, *row, *class, &[])?;
            let wanted = format!(in alloc; "\"{path}\"")?;
            assert!(rt; made.as_str() == wanted.as_str(), "{made}, not {wanted}");
        }
    }
    Ok(())
}

#[test]
fn a_path_takes_no_arguments(rt: HostRuntime) -> Result<(), Fail> {
    for row in &[ModuleRow::Name, ModuleRow::ToS, ModuleRow::Inspect] {
        let made = named(rt.alloc(), *row, CoreClass::Array, &[1])?;
        let wanted = "! ArgumentError: wrong number of arguments (given 1, expected 0)";
        assert!(rt; made.as_str() == wanted, "{made}, not {wanted}");
    }
    Ok(())
}

/// What `superclass` answers to a class; a module has no such method.
fn superclass(alloc: Global, class: CoreClass, args: &[i64]) -> Result<String, Fail> {
    let mut names = Names::new(alloc)?;
    let mut heap = Heap::new(alloc, &mut names)?;
    let class = heap.core(class);
    let ModuleKind::Class(_) = heap.kind(class) else {
        return Ok(String::from_str(alloc, "none")?);
    };
    let prim = PrimId::Class(ClassRow::Superclass);
    let class = Value::Module(class);
    let (made, _) = match args {
        [] => answered(alloc, prim, class, &[], 0, &mut heap, &mut names)?,
        [a, ..] => answered(
            alloc,
            prim,
            class,
            &[Value::Int(*a)],
            0,
            &mut heap,
            &mut names,
        )?,
    };
    Ok(made)
}

#[test]
fn each_class_has_its_superclass(rt: HostRuntime) -> Result<(), Fail> {
    for (class, path, wanted) in CLASSES {
        let made = superclass(rt.alloc(), *class, &[])?;
        assert!(rt; made.as_str() == *wanted, "{path}: {made}, not {wanted}");
    }
    let made = superclass(rt.alloc(), CoreClass::Object, &[1])?;
    let wanted = "! ArgumentError: wrong number of arguments (given 1, expected 0)";
    assert!(rt; made.as_str() == wanted, "{made}, not {wanted}");
    Ok(())
}
