//! Calls of primitive methods, by their identities.
ghost use Rattle.std.specs.Prelude.{◌≡◌, ◌≤◌, true, false, length, Ok, IfOk};
ghost use Rattle.std.specs.List.{All};
ghost use Rattle.zw_heap.specs.Heap.{sizes_of};
ghost use Rattle.zw_heap.specs.Sound.{IsIn, Stays};
ghost use Rattle.zw_heap.specs.Telling.{OnlyAdds};
ghost use Rattle.zw_def.specs.Names.{OnlyGrows};
ghost use Rattle.zw_calls.specs.Call.{call_of};
ghost use Rattle.zw_calls.specs.End.{MakesOnlyPaid};
ghost use Rattle.zw_calls.specs.PrimSeen.{row_seen};
ghost use Rattle.zw_calls.specs.declared.end.PrimEnd.TheVariants.{Again as AgainEnd};
ghost use Rattle.zw_prims.specs.Does.{Does};
ghost use Rattle.zw_prims.specs.Marked.{is_marked, kernel_marked};
ghost use Rattle.zw_prims.specs.Receives.{Receives};

use crate::{class, exception, integer, kernel, module, nil, object};
use std::alloc::{AllocError, Global};
use zw_arrays::array;
use zw_calls::{ClassRow, KernelRow, ModuleRow, PrimEnd, PrimId};
use zw_heap::{Heap, Value};
use zw_meter::Meter;
use zw_names::Names;
use zw_strings::{string, symbol};

/// Whether a method of Kernel calls methods, or reads or changes tables.
fn is_marked_kernel(row: KernelRow) -> bool
    ensures { result ≡ kernel_marked row }
{
    matches!(
        row,
        KernelRow::Puts
            | KernelRow::Raise
            | KernelRow::Differs
            | KernelRow::IsA
            | KernelRow::RespondsTo
            | KernelRow::Freeze
    )
}

/// Whether a method calls methods, loads, or reads or changes tables: all those of Module do, except for the ones that
/// give its path.
fn is_marked(prim: PrimId) -> bool
    ensures { result ≡ is_marked prim }
{
    match prim {
        PrimId::Kernel(row) => is_marked_kernel(row),
        PrimId::Module(row) => !matches!(
            row,
            ModuleRow::Name | ModuleRow::ToS | ModuleRow::Inspect
        ),
        PrimId::Class(row) => row == ClassRow::New,
        _ => false,
    }
}

/// A call of a primitive method. One that calls methods, loads, or reads or changes tables is answered by `Again`, with
/// its arguments untested; it is finished elsewhere. Of all others the arguments are tested first: their number, and then
/// their kinds, from the left. What is made is paid for first.
pub fn apply(
    alloc: Global,
    prim: PrimId,
    receiver: Value,
    args: &[Value],
    heap: &mut Heap,
    names: &mut Names,
    meter: &mut Meter,
) -> Result<PrimEnd, AllocError>
    requires receiver { IsIn (sizes_of heap.old) receiver }
    requires receives { Receives prim heap.old receiver }
    requires arguments { All (IsIn (sizes_of heap.old)) args.now }
    requires named { heap.old.names ≤ length names.old }
    ensures named { heap.new.names ≤ length names.new }
    ensures grows { OnlyGrows names.old names.new }
    ensures only_adds { OnlyAdds heap.old heap.new }
    ensures stays { Stays heap.old heap.new }
    ensures depth { meter.new.depth ≡ meter.old.depth }
    ensures paid { IfOk result (MakesOnlyPaid heap.old heap.new) }
    ensures again { is_marked prim ≡ true → (result ≡ Ok (AgainEnd prim)) × (heap.new ≡ heap.old)
        × (names.new ≡ names.old) × (meter.new ≡ meter.old) }
    ensures does { is_marked prim ≡ false → IfOk result (Does (call_of (row_seen prim) receiver args.now)
        heap.old heap.new names.new meter.old.left meter.new.left) }
{
    if is_marked(prim) {
        return Ok(PrimEnd::Again(prim));
    }
    match (prim, receiver) {
        (PrimId::Kernel(row), _) => kernel::apply(alloc, row, receiver, args, heap, names, meter),
        (PrimId::Module(_), Value::Module(of)) => module::apply(
            alloc, of, args, heap, names, meter,
        ),
        (PrimId::Class(_), Value::Module(class)) => class::apply(alloc, class, args, heap, names),
        (PrimId::Object(_), _) => object::apply(alloc, receiver, args, heap, names),
        (PrimId::Nil(row), Value::Nil) => nil::apply(alloc, row, args, heap, names, meter),
        (PrimId::Integer(row), Value::Int(number)) => integer::apply(
            alloc, row, number, args, heap, names, meter,
        ),
        (PrimId::String(row), Value::Text(text)) => string::apply(
            alloc, row, text, args, heap, names, meter,
        ),
        (PrimId::Symbol(row), Value::Sym(name)) => symbol::apply(
            alloc, row, name, args, heap, names,
        ),
        (PrimId::Array(row), Value::Array(array)) => array::apply(
            alloc, row, array, args, heap, names, meter,
        ),
        (PrimId::Exception(row), Value::Object(object)) => exception::apply(
            alloc, row, object, args, heap, names, meter,
        ),
        _ => unreachable!(),
    }
}
