//! What modules include, and what they are extended by.
ghost use Rattle.std.specs.Prelude.{◌≡◌, ◌<◌, true, false, OnOk, OnErr};
ghost use Rattle.zw_consts.specs.Ancestor.{numbers_of, is_among};
ghost use Rattle.zw_heap.specs.Founded.{is_class_at};
ghost use Rattle.zw_heap.specs.Heap.{is_frozen_in, sizes_of};
ghost use Rattle.zw_heap.specs.Sound.{IsIn, Stays};
ghost use Rattle.zw_heap.specs.declared.value.Value.TheVariants.{Module as ModuleValue};
ghost use Rattle.zw_methods.specs.Change.{including, extending, is_cyclic, fault_of, AnswersInclude, AnswersCyclic};
ghost use Rattle.zw_methods.specs.Methods.{AnswersFrozen};

use crate::fault::{MethodFault, MethodRefusal};
use crate::methods::unless_frozen;
use std::alloc::Global;
use zw_consts::{ancestors, ancestors_are_reached};
use zw_heap::{Heap, HeapFault, ModuleId};

/// Whether a module is one of several.
pub fn is_one_of(modules: &[ModuleId], one: ModuleId) -> bool
    ensures { result ≡ is_among (numbers_of modules.now) one.0 }
{
    for module in modules {
        if one.0 == module.0 {
            return true;
        }
    }
    false
}

/// Refuses to include a module that leads back to the one that would include it.
fn unless_cyclic(
    alloc: Global,
    heap: &Heap,
    into: ModuleId,
    added: ModuleId,
) -> Result<(), MethodFault>
    requires { IsIn (sizes_of heap.now) (ModuleValue added) }
    ensures { AnswersCyclic (is_cyclic heap.now into added) result }
{
    if is_one_of(&ancestors(alloc, heap, added)?, into) {
        return Err(MethodFault::Refused(MethodRefusal::Cyclic));
    }
    Ok(())
}

/// A refusal of a heap to change a module, which is that it is frozen.
fn frozen_or_memory(fault: HeapFault) -> MethodFault
    ensures { result ≡ fault_of fault }
{
    match fault {
        HeapFault::Refused(_) => MethodFault::Refused(MethodRefusal::Frozen),
        HeapFault::Memory => MethodFault::Memory,
    }
}

/// A class or module includes a module, which becomes the first (ISO/IEC 30170, 15.2.2.4.27). One that is included already
/// stays where it is. It is refused as frozen exactly where the class or module is, and else as cyclic exactly where it
/// stands above what it would include.
pub fn include(
    alloc: Global,
    into: ModuleId,
    added: ModuleId,
    heap: &mut Heap,
) -> Result<(), MethodFault>
    requires into { IsIn (sizes_of heap.old) (ModuleValue into) }
    requires added { IsIn (sizes_of heap.old) (ModuleValue added) }
    requires plain { is_class_at heap.old.modules added.0 false }
    ensures set { OnOk result (heap.new ≡ including into added heap.old) }
    ensures unchanged { OnErr result (heap.new ≡ heap.old) }
    ensures refused { AnswersInclude (is_frozen_in heap.old (ModuleValue into))
        (is_cyclic heap.old into added) result }
    ensures stays { Stays heap.old heap.new }
{
    unless_frozen(heap, into)?;
    unless_cyclic(alloc, heap, into, added)?;
    ancestors_are_reached(heap);
    if is_one_of(heap.includes(into), added) {
        return Ok(());
    }
    match heap.add_include(into, added) {
        Ok(()) => Ok(()),
        Err(fault) => Err(frozen_or_memory(fault)),
    }
}

/// A class or module is extended by a module, which becomes the first (ISO/IEC 30170, 15.3.1.3.13). One that it is extended
/// by already stays where it is. It is refused as frozen exactly where the class or module is.
pub fn extend(extended: ModuleId, added: ModuleId, heap: &mut Heap) -> Result<(), MethodFault>
    requires extended { IsIn (sizes_of heap.old) (ModuleValue extended) }
    requires added { IsIn (sizes_of heap.old) (ModuleValue added) }
    ensures set { OnOk result (heap.new ≡ extending extended added heap.old) }
    ensures unchanged { OnErr result (heap.new ≡ heap.old) }
    ensures frozen { AnswersFrozen (is_frozen_in heap.old (ModuleValue extended)) result }
    ensures stays { Stays heap.old heap.new }
{
    unless_frozen(heap, extended)?;
    if is_one_of(heap.extensions(extended), added) {
        return Ok(());
    }
    match heap.add_extension(extended, added) {
        Ok(()) => Ok(()),
        Err(fault) => Err(frozen_or_memory(fault)),
    }
}
