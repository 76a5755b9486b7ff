//! What class and module statements open (ISO/IEC 30170, 13.2.2 and 13.1.2).
ghost use Rattle.std.specs.Prelude.{◌≡◌, ◌<◌, codes, length, List, IfOk, IfSome};
ghost use Rattle.std.specs.Option.{option_map};
ghost use Rattle.zw_calls.specs.Fault.{fault_seen};
ghost use Rattle.zw_def.specs.Text.{Text};
ghost use Rattle.zw_def_world.specs.CoreClass.{TypeError};
ghost use Rattle.zw_def_world.specs.Definition.{is_superclass, mismatch, no_class_fault, no_module_fault, reopens_class_value, reopens_module_value};
ghost use Rattle.zw_def_world.specs.Making.{fails};
ghost use Rattle.zw_def_world.specs.Value.{as_module};
ghost use Rattle.zw_heap.specs.Heap.{sizes_of};
ghost use Rattle.zw_heap.specs.Sound.{IsIn};
ghost use Rattle.zw_heap.specs.Telling.{Telling, Fits, tell, told_superclass};
ghost use Rattle.zw_heap.specs.declared.value.ModuleKind.TheVariants.{Class};
ghost use Rattle.zw_ops.specs.Open.{Opens, Reopens, reopens, is_below_class};

use crate::fault::OpFault;
use std::alloc::{AllocError, Global};
use zw_calls::end::fault;
use zw_fault::{ErrorKind, Raise};
use zw_heap::{CoreClass, Heap, ModuleId, ModuleKind, Value};
use zw_names::{Name, Names};

/// What a class or module statement does with a name.
#[derive(Clone, Copy, Debug, PartialEq, Eq)]
pub enum OpenAct {
    /// It opens what stands under the name.
    Reopen(ModuleId),
    /// It makes a class or module.
    Make,
}

/// The fault of a name under which no class stands.
fn not_a_class(alloc: Global, name: &str) -> Result<Raise, AllocError>
    ensures { IfOk result (λ raise. fault_seen raise ≡ no_class_fault name.now) }
{
    Ok(Raise {
        kind: ErrorKind::TypeError,
        message: format!(in alloc; "{name} is not a class")?,
    })
}

/// The fault of a name under which no module stands.
fn not_a_module(alloc: Global, name: &str) -> Result<Raise, AllocError>
    ensures { IfOk result (λ raise. fault_seen raise ≡ no_module_fault name.now) }
{
    Ok(Raise {
        kind: ErrorKind::TypeError,
        message: format!(in alloc; "{name} is not a module")?,
    })
}

/// The fault of a class that has another superclass.
fn mismatch(alloc: Global, name: &str) -> Result<Raise, AllocError>
    ensures { IfOk result (λ raise. fault_seen raise ≡ mismatch name.now) }
{
    Ok(Raise {
        kind: ErrorKind::TypeError,
        message: format!(in alloc; "superclass mismatch for class {name}")?,
    })
}

/// Whether a superclass that may be given is the one that a class has.
fn is_superclass(given: Option<ModuleId>, above: Option<ModuleId>) -> bool
    ensures { (I : Telling) → is_superclass (option_map (λ m. I.module_id m.0) given)
        (option_map (λ m. I.module_id m.0) above) ≡ result }
{
    let Some(given) = given else {
        return true;
    };
    let Some(above) = above else {
        return false;
    };
    given.0 == above.0
}

/// What a class statement opens, where something stands under its name.
fn reopen_class(
    alloc: Global,
    heap: &Heap,
    found: Value,
    superclass: Option<ModuleId>,
    name: &str,
) -> Result<ModuleId, OpFault>
    requires { IsIn (sizes_of heap.now) found }
    ensures { (names : List Text) → Reopens heap.now names
        (λ I. reopens_class_value (told_superclass I (Class superclass)) name.now)
        (λ I. as_module (tell I found)) result }
{
    let Value::Module(module) = found else {
        return Err(OpFault::Refused(not_a_class(alloc, name)?));
    };
    let ModuleKind::Class(above) = heap.kind(module) else {
        return Err(OpFault::Refused(not_a_class(alloc, name)?));
    };
    if is_superclass(superclass, above) {
        return Ok(module);
    }
    Err(OpFault::Refused(mismatch(alloc, name)?))
}

/// What a module statement opens, where something stands under its name.
fn reopen_module(alloc: Global, heap: &Heap, found: Value, name: &str) -> Result<ModuleId, OpFault>
    requires { IsIn (sizes_of heap.now) found }
    ensures { (names : List Text) → Reopens heap.now names
        (λ I. reopens_module_value name.now) (λ I. as_module (tell I found)) result }
{
    let Value::Module(module) = found else {
        return Err(OpFault::Refused(not_a_module(alloc, name)?));
    };
    match heap.kind(module) {
        ModuleKind::Module => Ok(module),
        ModuleKind::Class(_) => Err(OpFault::Refused(not_a_module(alloc, name)?)),
    }
}

/// Opens what stands under the name of a statement.
fn reopen(
    alloc: Global,
    heap: &Heap,
    found: Value,
    kind: ModuleKind,
    name: &str,
) -> Result<ModuleId, OpFault>
    requires { IsIn (sizes_of heap.now) found }
    ensures { (names : List Text)
        → Reopens heap.now names (λ I. reopens kind I name.now) (λ I. as_module (tell I found)) result }
{
    match kind {
        ModuleKind::Module => reopen_module(alloc, heap, found, name),
        ModuleKind::Class(superclass) => reopen_class(alloc, heap, found, superclass, name),
    }
}

/// The fault of a class below `Class`.
fn below_class(alloc: Global) -> Result<Raise, AllocError>
    ensures { IfOk result (λ raise. fault_seen raise ≡ fails TypeError (codes "can't make subclass of Class")) }
{
    fault(alloc, ErrorKind::TypeError, "can't make subclass of Class")
}

/// Whether a class would stand below `Class`.
fn is_below_class(heap: &Heap, kind: ModuleKind) -> bool
    ensures { (I : Telling) (names : List Text) → Fits I names heap.now → is_below_class kind I ≡ result }
{
    heap.tells_core();
    let ModuleKind::Class(superclass) = kind else {
        return false;
    };
    let Some(superclass) = superclass else {
        return false;
    };
    superclass.0 == heap.core(CoreClass::Class).0
}

/// What a class or module statement does with a name under which something may stand.
pub fn choose_open(
    alloc: Global,
    heap: &Heap,
    names: &Names,
    found: Option<Value>,
    kind: ModuleKind,
    name: Name,
) -> Result<OpenAct, OpFault>
    requires found { IfSome found (IsIn (sizes_of heap.now)) }
    requires named { name.0 < length names.now }
    ensures { Opens heap.now names.now kind name.0 found result }
{
    let text = names.text(name);
    if let Some(value) = found {
        let module = reopen(alloc, heap, value, kind, text)?;
        return Ok(OpenAct::Reopen(module));
    }
    if is_below_class(heap, kind) {
        return Err(OpFault::Refused(below_class(alloc)?));
    }
    Ok(OpenAct::Make)
}
