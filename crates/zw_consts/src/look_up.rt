//! The modules that are asked for a constant.
ghost use Rattle.std.specs.Prelude.{◌≡◌, ◌<◌, ℕ, IfOk, length};
ghost use Rattle.std.specs.List.{All};
ghost use Rattle.zw_consts.specs.Ancestor.{numbers_of};
ghost use Rattle.zw_consts.specs.LookUp.{without, is_class_in, asked_from, unscoped_modules, scoped_modules};
ghost use Rattle.zw_heap.specs.Heap.{sizes_of};
ghost use Rattle.zw_heap.specs.Sound.{IsIn};
ghost use Rattle.zw_heap.specs.declared.value.Value.TheVariants.{Module as ModuleValue};

use crate::ancestor::ancestors;
use std::alloc::{AllocError, Global};
use zw_heap::{CoreClass, Heap, ModuleId, ModuleKind};

/// All but one of several modules, in their order.
fn all_but(alloc: Global, one: ModuleId, modules: &[ModuleId]) -> Result<Vec<ModuleId>, AllocError>
    ensures others { IfOk result (λ others. numbers_of others.items ≡ without one.0 (numbers_of modules.now)) }
    ensures held { IfOk result (λ others. (b : ℕ) → All (λ i. i.0 < b) modules.now
        → All (λ i. i.0 < b) others.items) }
{
    let mut others = Vec::new(alloc);
    for module in modules {
        if one.0 != module.0 {
            others.push(*module)?;
        }
    }
    Ok(others)
}

fn is_class(heap: &Heap, of: ModuleId) -> bool
    requires { IsIn (sizes_of heap.now) (ModuleValue of) }
    ensures { result ≡ is_class_in heap.now.modules of.0 }
{
    match heap.kind(of) {
        ModuleKind::Module => false,
        ModuleKind::Class(_) => true,
    }
}

/// The modules that are asked where there are scopes, of which one is the innermost.
fn walk_from(
    alloc: Global,
    heap: &Heap,
    scopes: &[ModuleId],
    innermost: ModuleId,
) -> Result<Vec<ModuleId>, AllocError>
    requires innermost { IsIn (sizes_of heap.now) (ModuleValue innermost) }
    requires scopes { All (λ i. i.0 < length heap.now.modules) scopes.now }
    ensures held { IfOk result (λ asked. All (λ i. i.0 < length heap.now.modules) asked.items) }
    ensures asked { IfOk result (λ asked. numbers_of asked.items
        ≡ asked_from heap.now.modules (numbers_of scopes.now) innermost.0) }
{
    let object = heap.core(CoreClass::Object);
    let mut asked = all_but(alloc, object, scopes)?;
    asked.append(&mut ancestors(alloc, heap, innermost)?)?;
    if !is_class(heap, innermost) {
        asked.push(object)?;
    }
    Ok(asked)
}

/// The modules that are asked for a constant that is written alone, as `N` (ISO/IEC 30170, 11.5.4.2): the scopes, the
/// innermost first and without `Object`; then the ancestors of the innermost scope, or of `Object` where there is none;
/// then `Object`, where the innermost scope is a module and no class.
pub fn walk(alloc: Global, heap: &Heap, scopes: &[ModuleId]) -> Result<Vec<ModuleId>, AllocError>
    requires { All (λ i. i.0 < length heap.now.modules) scopes.now }
    ensures held { IfOk result (λ asked. All (λ i. i.0 < length heap.now.modules) asked.items) }
    ensures asked { IfOk result (λ asked. numbers_of asked.items
        ≡ unscoped_modules heap.now.modules (numbers_of scopes.now)) }
{
    match scopes.first() {
        Some(innermost) => walk_from(alloc, heap, scopes, *innermost),
        None => ancestors(alloc, heap, heap.core(CoreClass::Object)),
    }
}

/// The modules that are asked for a constant that is written below a module, as `A::N`: the ancestors of `A`, without
/// `Object` and `Kernel` unless `A` is `Object`.
pub fn walk_below(alloc: Global, heap: &Heap, of: ModuleId) -> Result<Vec<ModuleId>, AllocError>
    requires { IsIn (sizes_of heap.now) (ModuleValue of) }
    ensures held { IfOk result (λ asked. All (λ i. i.0 < length heap.now.modules) asked.items) }
    ensures asked { IfOk result (λ asked. numbers_of asked.items ≡ scoped_modules heap.now.modules of.0) }
{
    let line = ancestors(alloc, heap, of)?;
    let object = heap.core(CoreClass::Object);
    if of.0 == object.0 {
        return Ok(line);
    }
    let below = all_but(alloc, object, &line)?;
    all_but(alloc, heap.core(CoreClass::Kernel), &below)
}
