//! Calls of methods by their identities.
ghost use Rattle.std.specs.Prelude.{◌≤◌, length};
ghost use Rattle.std.specs.List.{All};
ghost use Rattle.zw_heap.specs.Heap.{sizes_of};
ghost use Rattle.zw_heap.specs.Sound.{IsIn, Stays};
ghost use Rattle.zw_prims.specs.Receives.{Receives};

use crate::item::{Item, values};
use crate::names::METHODS;
use crate::outcome::outcome;
use std::alloc::Global;
use std::process::Abort;
use std::test::Fail;
use zw_calls::{ClassRow, ExceptionRow, PrimId, SymbolRow, prim};
use zw_heap::{CoreClass, Heap, ModuleKind, Value};
use zw_meter::Meter;
use zw_names::Names;
use zw_prims::apply;

/// What a call answers with so many steps left, and the steps left then.
pub(crate) fn answered(
    alloc: Global,
    prim: PrimId,
    receiver: Value,
    args: &[Value],
    left: u64,
    heap: &mut Heap,
    names: &mut Names,
) -> Result<(String, u64), Fail>
    requires receiver { IsIn (sizes_of heap.old) receiver }
    requires receives { Receives prim heap.old receiver }
    requires held { All (IsIn (sizes_of heap.old)) args.now }
    requires named { heap.old.names ≤ length names.old }
    ensures stays { Stays heap.old heap.new }
    ensures named { heap.new.names ≤ length names.new }
{
    let mut meter = Meter { left, depth: 0 };
    let end = apply(alloc, prim, receiver, args, heap, names, &mut meter)?;
    Ok((outcome(alloc, &end, heap, names)?, meter.left))
}

/// The methods that are finished elsewhere.
const MARKED: &[(CoreClass, &str)] = &[
    (CoreClass::Kernel, "puts raise != is_a? respond_to? freeze"),
    (
        CoreClass::Module,
        "=== < <= > >= ancestors include extend include? attr_reader attr_writer attr_accessor private public private_class_method const_get const_defined? autoload? method_defined?",
    ),
    (CoreClass::Class, "new"),
];

fn is_marked(class: CoreClass, name: &str) -> bool {
    for (of, names) in MARKED {
        if *of == class && names.split_whitespace().any(|marked| marked == name) {
            return true;
        }
    }
    false
}

/// What a method of Exception answers to an exception.
fn of_exception(
    rt: &impl Abort,
    alloc: Global,
    row: ExceptionRow,
    args: &[Value],
    heap: &mut Heap,
    names: &mut Names,
) -> Result<(String, u64), Fail>
    requires held { All (IsIn (sizes_of heap.old)) args.now }
    requires named { heap.old.names ≤ length names.old }
{
    let error = heap.make_object(heap.core(CoreClass::NameError))?;
    let receiver = Value::Object(error);
    assert!(rt;
        heap.makes_exceptions(heap.class_of(receiver)),
        "no exception"
    );
    answered(
        alloc,
        PrimId::Exception(row),
        receiver,
        args,
        9,
        heap,
        names,
    )
}

/// What a method of Class answers to a class.
fn of_class(
    rt: &impl Abort,
    alloc: Global,
    row: ClassRow,
    args: &[Value],
    heap: &mut Heap,
    names: &mut Names,
) -> Result<(String, u64), Fail>
    requires held { All (IsIn (sizes_of heap.old)) args.now }
    requires named { heap.old.names ≤ length names.old }
{
    let class = heap.core(CoreClass::String);
    let ModuleKind::Class(_) = heap.kind(class) else {
        panic!(rt; "no class");
    };
    answered(
        alloc,
        PrimId::Class(row),
        Value::Module(class),
        args,
        9,
        heap,
        names,
    )
}

/// What a method of Symbol answers to a symbol.
fn of_symbol(
    alloc: Global,
    row: SymbolRow,
    args: &[Value],
    heap: &mut Heap,
    names: &mut Names,
) -> Result<(String, u64), Fail>
    requires held { All (IsIn (sizes_of heap.old)) args.now }
    requires named { heap.old.names ≤ length names.old }
{
    let name = names.intern("a")?;
    heap.tell_names(names);
    answered(
        alloc,
        PrimId::Symbol(row),
        Value::Sym(name),
        args,
        9,
        heap,
        names,
    )
}

/// What a method answers to a receiver of its class.
fn of_its_class(
    rt: &impl Abort,
    alloc: Global,
    prim: PrimId,
    args: &[Value],
    heap: &mut Heap,
    names: &mut Names,
) -> Result<(String, u64), Fail>
    requires held { All (IsIn (sizes_of heap.old)) args.now }
    requires named { heap.old.names ≤ length names.old }
{
    let text = heap.make_text("a")?;
    let array = heap.make_array(&[])?;
    let of = heap.core(CoreClass::Kernel);
    match prim {
        PrimId::Kernel(_) => answered(alloc, prim, Value::Nil, args, 9, heap, names),
        PrimId::Module(_) => answered(alloc, prim, Value::Module(of), args, 9, heap, names),
        PrimId::Class(row) => of_class(rt, alloc, row, args, heap, names),
        PrimId::Object(_) => answered(alloc, prim, Value::True, args, 9, heap, names),
        PrimId::Nil(_) => answered(alloc, prim, Value::Nil, args, 9, heap, names),
        PrimId::Integer(_) => answered(alloc, prim, Value::Int(7), args, 9, heap, names),
        PrimId::String(_) => answered(alloc, prim, Value::Text(text), args, 9, heap, names),
        PrimId::Symbol(row) => of_symbol(alloc, row, args, heap, names),
        PrimId::Array(_) => answered(alloc, prim, Value::Array(array), args, 9, heap, names),
        PrimId::Exception(row) => of_exception(rt, alloc, row, args, heap, names),
    }
}

/// A method is answered by itself where it is finished elsewhere, and by another end where it is not.
fn try_method(
    rt: &impl Abort,
    alloc: Global,
    class: CoreClass,
    name: &str,
    items: &[Item],
) -> Result<(), Fail> {
    let mut names = Names::new(alloc)?;
    let mut heap = Heap::new(alloc, &mut names)?;
    let args = values(alloc, items, &mut heap, &mut names)?;
    let prim = prim(class, name).expect(rt, "a method");
    let (made, left) = of_its_class(rt, alloc, prim, args.as_slice(), &mut heap, &mut names)?;
    let class_name = class.name();
    let again = format!(in alloc; "again {class_name} {name}")?;
    let marked = is_marked(class, name);
    assert!(rt;
        (made.as_str() == again.as_str()) == marked,
        "{name}: {made}"
    );
    assert!(rt;
        made.as_str().starts_with("again") == marked,
        "{name}: {made}"
    );
    assert!(rt; !marked || left == 9, "{name}: {left} steps left");
    Ok(())
}

fn try_methods(rt: &impl Abort, alloc: Global, items: &[Item]) -> Result<usize, Fail> {
    let mut count = 0usize;
    for (class, names) in METHODS {
        for name in names.split_whitespace() {
            try_method(rt, alloc, *class, name, items)?;
            count = count.saturating_add(1);
        }
    }
    Ok(count)
}

/// Arguments of each number and kind.
const ARGUMENTS: &[&[Item]] = &[
    &[],
    &[Item::Nil],
    &[Item::Int(1)],
    &[Item::Text("b")],
    &[Item::Symbol("b")],
    &[Item::Numbers(&[1])],
    &[Item::Module(CoreClass::Integer)],
    &[Item::Int(1), Item::Int(2)],
    &[Item::Nil, Item::Nil, Item::Nil],
];

#[test]
fn marked_methods_alone_are_finished_elsewhere(rt: HostRuntime) -> Result<(), Fail> {
    for items in ARGUMENTS {
        let count = try_methods(&rt, rt.alloc(), items)?;
        assert!(rt; count == 116, "{count} methods");
    }
    Ok(())
}
