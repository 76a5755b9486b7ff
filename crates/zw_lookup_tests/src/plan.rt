//! Plans of classes and modules, as words. A word is `c` or `m` for a class or a module that is made, its letter, the
//! letter of its superclass or `-`, and the letters of what it includes, in the order of writing. A word with `+` has a
//! class or module include more. `O` is `Object`, `K` is `Kernel`, `1` is `Class`, and `2` is `Module`.
ghost use Rattle.std.specs.Prelude.{◌<◌, IfOk, length};
ghost use Rattle.std.specs.List.{All};
ghost use Rattle.zw_heap.specs.Heap.{sizes_of};
ghost use Rattle.zw_heap.specs.Sound.{IsIn, KindIn};
ghost use Rattle.zw_heap.specs.declared.value.Value.TheVariants.{Module as ModuleValue};

use std::alloc::Global;
use std::process::Abort;
use std::test::Fail;
use zw_heap::{CoreClass, Heap, ModuleId, ModuleKind};
use zw_methods::{MethodFault, extend, include};
use zw_names::{CPath, Names};

/// What a plan made: a heap, and the modules of the letters, the last one made last.
#[derive(Drop)]
pub(crate) struct Made {
    pub(crate) heap: Heap,
    pub(crate) letters: Vec<(u8, ModuleId)>,
}

/// The module of a letter, which is in the heap.
pub(crate) fn module_of(rt: &impl Abort, made: &Made, letter: u8) -> ModuleId
    ensures { IsIn (sizes_of made.now.heap) (ModuleValue result) }
{
    let mut found = made.heap.core(CoreClass::Object);
    for (other, module) in &made.letters {
        if *other == letter {
            found = *module;
        }
    }
    assert!(rt; found.0 < made.heap.module_count());
    found
}

/// Those of several letters.
pub(crate) fn modules_of(
    rt: &impl Abort,
    alloc: Global,
    made: &Made,
    letters: &[u8],
) -> Result<Vec<ModuleId>, Fail>
    ensures { IfOk result (λ modules. All (λ i. i.0 < length made.now.heap.modules) modules.items) }
{
    let mut modules = Vec::new(alloc);
    for letter in letters {
        modules.push(module_of(rt, made, *letter))?;
    }
    Ok(modules)
}

/// The module that was made last, which is in the heap.
pub(crate) fn last_of(rt: &impl Abort, made: &Made) -> ModuleId
    ensures { IsIn (sizes_of made.now.heap) (ModuleValue result) }
{
    let last = match made.letters.last() {
        Some((_, module)) => *module,
        None => made.heap.core(CoreClass::Object),
    };
    assert!(rt; last.0 < made.heap.module_count());
    last
}

fn kind_of(rt: &impl Abort, made: &Made, kind: u8, superclass: u8) -> ModuleKind
    ensures { KindIn (sizes_of made.now.heap) result }
{
    if kind == b'm' {
        return ModuleKind::Module;
    }
    ModuleKind::Class(Some(module_of(rt, made, superclass)))
}

/// A class or module includes one more.
pub(crate) fn include_in(
    rt: &impl Abort,
    alloc: Global,
    heap: &mut Heap,
    into: ModuleId,
    added: ModuleId,
) -> Result<(), MethodFault> {
    assert!(rt; into.0 < heap.module_count() && added.0 < heap.module_count());
    let is_class = match heap.kind(added) {
        ModuleKind::Module => false,
        ModuleKind::Class(_) => true,
    };
    assert!(rt; !is_class);
    include(alloc, into, added, heap)
}

/// It is extended by one more.
pub(crate) fn extend_in(
    rt: &impl Abort,
    heap: &mut Heap,
    into: ModuleId,
    added: ModuleId,
) -> Result<(), MethodFault> {
    assert!(rt; into.0 < heap.module_count() && added.0 < heap.module_count());
    extend(into, added, heap)
}

fn include_each(
    rt: &impl Abort,
    alloc: Global,
    made: &mut Made,
    into: u8,
    added: &[u8],
) -> Result<(), Fail> {
    for letter in added {
        let into = module_of(rt, made, into);
        let added = module_of(rt, made, *letter);
        include_in(rt, alloc, &mut made.heap, into, added)?;
    }
    Ok(())
}

fn follow(rt: &impl Abort, alloc: Global, made: &mut Made, word: &[u8]) -> Result<(), Fail> {
    assert!(rt; word.len() >= 3);
    if word[0] != b'+' {
        let kind = kind_of(rt, made, word[0], word[2]);
        let module = made.heap.make_module(CPath::object(alloc), kind)?;
        made.letters.push((word[1], module))?;
    }
    include_each(rt, alloc, made, word[1], &word[3..])
}

fn start(alloc: Global) -> Result<Made, Fail> {
    let mut names = Names::new(alloc)?;
    let heap = Heap::new(alloc, &mut names)?;
    let mut letters = Vec::new(alloc);
    letters.push((b'O', heap.core(CoreClass::Object)))?;
    letters.push((b'K', heap.core(CoreClass::Kernel)))?;
    letters.push((b'1', heap.core(CoreClass::Class)))?;
    letters.push((b'2', heap.core(CoreClass::Module)))?;
    Ok(Made { heap, letters })
}

/// What a plan makes.
pub(crate) fn made_by(rt: &impl Abort, alloc: Global, plan: &str) -> Result<Made, Fail> {
    let mut made = start(alloc)?;
    for word in plan.split(' ') {
        follow(rt, alloc, &mut made, word.as_bytes())?;
    }
    Ok(made)
}

/// The letters of modules.
pub(crate) fn letters_of(alloc: Global, made: &Made, modules: &[ModuleId]) -> Result<String, Fail> {
    let mut text = String::new(alloc);
    for module in modules {
        for (letter, other) in &made.letters {
            if *other == *module {
                text.push(char::from(*letter))?;
            }
        }
    }
    Ok(text)
}
