//! Ancestors.
ghost use Rattle.std.specs.Prelude.{◌≡◌, ◌++◌, ◌<◌, ◌||◌, IfOk, OnOk, length, reverse};
ghost use Rattle.std.specs.List.{All};
ghost use Rattle.zw_consts.specs.Ancestor.{numbers_of, is_among, own_by, ancestors_of, superclasses_of};
ghost use Rattle.zw_consts.specs.Line.{HoldsIncludes};
ghost use Rattle.zw_heap.specs.Heap.{sizes_of};
ghost use Rattle.zw_heap.specs.Sound.{IsIn};
ghost use Rattle.zw_heap.specs.declared.value.Value.TheVariants.{Module as ModuleValue};

use crate::line::Line;
use std::alloc::{AllocError, Global};
use zw_heap::{Heap, ModuleId};

/// A class, its superclass, and so on. Of a module it is that module alone.
pub fn superclasses(alloc: Global, heap: &Heap, of: ModuleId) -> Result<Vec<ModuleId>, AllocError>
    requires { IsIn (sizes_of heap.now) (ModuleValue of) }
    ensures line { IfOk result (λ line. numbers_of line.items ≡ superclasses_of heap.now.modules of.0) }
    ensures held { IfOk result (λ line. All (λ i. i.0 < length heap.now.modules) line.items) }
{
    heap.is_sound();
    let mut line = Vec::new(alloc);
    let mut next = Some(of);
    while let Some(class) = next {
        line.push(class)?;
        next = heap.superclass(class);
    }
    Ok(line)
}

/// Puts modules onto those that wait, so that the first is taken first.
fn put(alloc: Global, waiting: &mut Vec<ModuleId>, modules: &[ModuleId]) -> Result<(), AllocError>
    ensures { OnOk result (waiting.new.items ≡ waiting.old.items ++ reverse modules.now) }
{
    let mut reversed: Vec<ModuleId> = modules.iter().rev().copied().collect(alloc)?;
    waiting.append(&mut reversed)?;
    Ok(())
}

/// Whether a module is listed already, or above.
fn is_listed(own: &Line, above: &Line, of: ModuleId) -> bool
    ensures { result ≡ (is_among own.now of.0 || is_among above.now of.0) }
{
    own.contains(of) || above.contains(of)
}

/// A class or module, and what it includes, the last one first and each with its own, where these are not above.
fn own_line(alloc: Global, heap: &Heap, of: ModuleId, above: &Line) -> Result<Line, AllocError>
    requires of { IsIn (sizes_of heap.now) (ModuleValue of) }
    requires above { HoldsIncludes heap.now.modules above.now }
    ensures { IfOk result (λ own. own
        ≡ own_by (ancestors_of heap.now.modules) heap.now.modules above.now of.0) }
{
    heap.is_sound();
    let mut own = Line::new(alloc);
    own.push(of)?;
    let mut waiting = Vec::new(alloc);
    put(alloc, &mut waiting, heap.includes(of))?;
    while let Some(next) = waiting.pop() {
        if is_listed(&own, above, next) {
            continue;
        }
        own.push(next)?;
        put(alloc, &mut waiting, heap.includes(next))?;
    }
    Ok(own)
}

/// The ancestors of a class or module: itself; what it includes, the last one first, each with its own ancestors and
/// without those that are listed or above; and the ancestors of its superclass (ISO/IEC 30170, 13.3; the order is this
/// project's own). Each module is visited once.
pub fn ancestors(alloc: Global, heap: &Heap, of: ModuleId) -> Result<Vec<ModuleId>, AllocError>
    requires { IsIn (sizes_of heap.now) (ModuleValue of) }
    ensures line { IfOk result (λ line. numbers_of line.items ≡ ancestors_of heap.now.modules of.0) }
    ensures held { IfOk result (λ line. All (λ i. i.0 < length heap.now.modules) line.items) }
{
    heap.is_sound();
    let mut classes = superclasses(alloc, heap, of)?;
    let mut line = Line::new(alloc);
    while let Some(class) = classes.pop() {
        let own = own_line(alloc, heap, class, &line)?;
        line.extend(&own.reversed(alloc)?)?;
    }
    line.reversed(alloc)
}
