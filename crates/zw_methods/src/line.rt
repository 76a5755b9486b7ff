//! Lines of receivers.
ghost use Rattle.std.specs.Prelude.{◌≡◌, ◌++◌, ◌<◌, IfOk, OnOk, length};
ghost use Rattle.std.specs.List.{All, flat_map};
ghost use Rattle.zw_consts.specs.Ancestor.{numbers_of, ancestors_of};
ghost use Rattle.zw_heap.specs.Heap.{sizes_of};
ghost use Rattle.zw_heap.specs.Sound.{IsIn};
ghost use Rattle.zw_heap.specs.declared.value.Value.TheVariants.{Module as ModuleValue};
ghost use Rattle.zw_methods.specs.Line.{places_of, instances, cores, own_line, class_line, module_line, line_in};

use crate::method::ModuleLine;
use std::alloc::{AllocError, Global};
use zw_consts::{ancestors, superclasses};
use zw_heap::{CoreClass, Heap, ModuleId, ModuleKind, Value};

/// Tables of instances behind a line.
fn push_instances(line: &mut Vec<ModuleLine>, modules: &[ModuleId]) -> Result<(), AllocError>
    ensures { OnOk result (places_of line.new.items
        ≡ places_of line.old.items ++ instances (numbers_of modules.now)) }
{
    for module in modules {
        line.push(ModuleLine {
            module: *module,
            singleton: false,
        })?;
    }
    Ok(())
}

/// Those of core classes.
fn push_cores(
    line: &mut Vec<ModuleLine>,
    heap: &Heap,
    classes: &[CoreClass],
) -> Result<(), AllocError>
    ensures { OnOk result (places_of line.new.items
        ≡ places_of line.old.items ++ instances (cores classes.now)) }
{
    for class in classes {
        line.push(ModuleLine {
            module: heap.core(*class),
            singleton: false,
        })?;
    }
    Ok(())
}

/// What modules extend a class or module, each with its ancestors.
fn push_extensions(
    alloc: Global,
    line: &mut Vec<ModuleLine>,
    heap: &Heap,
    extensions: &[ModuleId],
) -> Result<(), AllocError>
    requires { All (λ i. i.0 < length heap.now.modules) extensions.now }
    ensures { OnOk result (places_of line.new.items
        ≡ places_of line.old.items
        ++ instances (flat_map (ancestors_of heap.now.modules) (numbers_of extensions.now))) }
{
    for extension in extensions {
        push_instances(line, &ancestors(alloc, heap, *extension)?)?;
    }
    Ok(())
}

/// The singleton table of a class or module, and its extensions, the last one first and each with its ancestors.
fn push_own(
    alloc: Global,
    line: &mut Vec<ModuleLine>,
    heap: &Heap,
    of: ModuleId,
) -> Result<(), AllocError>
    requires { IsIn (sizes_of heap.now) (ModuleValue of) }
    ensures { OnOk result (places_of line.new.items
        ≡ places_of line.old.items ++ own_line heap.now.modules of.0) }
{
    heap.is_sound();
    line.push(ModuleLine {
        module: of,
        singleton: true,
    })?;
    push_extensions(alloc, line, heap, heap.extensions(of))
}

/// Those of several classes.
fn push_each(
    alloc: Global,
    line: &mut Vec<ModuleLine>,
    heap: &Heap,
    classes: &[ModuleId],
) -> Result<(), AllocError>
    requires { All (λ i. i.0 < length heap.now.modules) classes.now }
    ensures { OnOk result (places_of line.new.items
        ≡ places_of line.old.items ++ flat_map (own_line heap.now.modules) (numbers_of classes.now)) }
{
    for class in classes {
        push_own(alloc, line, heap, *class)?;
    }
    Ok(())
}

fn line_of_class(alloc: Global, heap: &Heap, of: ModuleId) -> Result<Vec<ModuleLine>, AllocError>
    requires { IsIn (sizes_of heap.now) (ModuleValue of) }
    ensures { IfOk result (λ line. places_of line.items ≡ class_line heap.now.modules of.0) }
{
    let mut line = Vec::new(alloc);
    push_each(alloc, &mut line, heap, &superclasses(alloc, heap, of)?)?;
    let above = [
        CoreClass::Class,
        CoreClass::Module,
        CoreClass::Object,
        CoreClass::Kernel,
    ];
    push_cores(&mut line, heap, &above)?;
    Ok(line)
}

fn line_of_module(alloc: Global, heap: &Heap, of: ModuleId) -> Result<Vec<ModuleLine>, AllocError>
    requires { IsIn (sizes_of heap.now) (ModuleValue of) }
    ensures { IfOk result (λ line. places_of line.items ≡ module_line heap.now.modules of.0) }
{
    let mut line = Vec::new(alloc);
    push_own(alloc, &mut line, heap, of)?;
    let above = [CoreClass::Module, CoreClass::Object, CoreClass::Kernel];
    push_cores(&mut line, heap, &above)?;
    Ok(line)
}

fn line_of_instance(
    alloc: Global,
    heap: &Heap,
    class: ModuleId,
) -> Result<Vec<ModuleLine>, AllocError>
    requires { IsIn (sizes_of heap.now) (ModuleValue class) }
    ensures { IfOk result (λ line. places_of line.items ≡ instances (ancestors_of heap.now.modules class.0)) }
{
    let mut line = Vec::new(alloc);
    push_instances(&mut line, &ancestors(alloc, heap, class)?)?;
    Ok(line)
}

/// The line of a receiver, in which its methods are looked for (ISO/IEC 30170, 13.3.4). That of an object is the ancestors
/// of its class. That of a class is, for it and each superclass in turn, its singleton table and then its extensions, the
/// last one first, each with its ancestors; then `Class`, `Module`, `Object`, `Kernel`. That of a module is its own
/// singleton table and extensions in the same way; then `Module`, `Object`, `Kernel`. A line keeps repeats.
pub fn line_of(alloc: Global, heap: &Heap, receiver: Value) -> Result<Vec<ModuleLine>, AllocError>
    requires { IsIn (sizes_of heap.now) receiver }
    ensures { IfOk result (λ line. places_of line.items ≡ line_in heap.now receiver) }
{
    let Value::Module(of) = receiver else {
        return line_of_instance(alloc, heap, heap.class_of(receiver));
    };
    match heap.kind(of) {
        ModuleKind::Module => line_of_module(alloc, heap, of),
        ModuleKind::Class(_) => line_of_class(alloc, heap, of),
    }
}
