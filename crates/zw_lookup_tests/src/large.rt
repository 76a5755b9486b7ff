//! Large lattices: no way is gone twice.
use crate::plan::include_in;
use std::alloc::Global;
use std::process::Abort;
use std::test::Fail;
use zw_consts::ancestors;
use zw_heap::{CoreClass, Heap, ModuleId, ModuleKind};
use zw_names::{CPath, Names};

/// How many ancestors a module has.
fn count_of(rt: &impl Abort, alloc: Global, heap: &Heap, of: ModuleId) -> Result<usize, Fail> {
    assert!(rt; of.0 < heap.module_count());
    Ok(ancestors(alloc, heap, of)?.len())
}

fn make(
    rt: &impl Abort,
    alloc: Global,
    heap: &mut Heap,
    above: Option<ModuleId>,
) -> Result<ModuleId, Fail> {
    let Some(superclass) = above else {
        return Ok(heap.make_module(CPath::object(alloc), ModuleKind::Module)?);
    };
    assert!(rt; superclass.0 < heap.module_count());
    Ok(heap.make_module(CPath::object(alloc), ModuleKind::Class(Some(superclass)))?)
}

/// By going each way, the last of them would have more ancestors than a day has seconds, many times over.
#[test]
fn sixty_four_modules_each_include_the_two_before(rt: HostRuntime) -> Result<(), Fail> {
    let alloc = rt.alloc();
    let mut names = Names::new(alloc)?;
    let mut heap = Heap::new(alloc, &mut names)?;
    let mut before = make(&rt, alloc, &mut heap, None)?;
    let mut last = make(&rt, alloc, &mut heap, None)?;
    include_in(&rt, alloc, &mut heap, last, before)?;
    for _ in 2..64_usize {
        let next = make(&rt, alloc, &mut heap, None)?;
        include_in(&rt, alloc, &mut heap, next, before)?;
        include_in(&rt, alloc, &mut heap, next, last)?;
        before = last;
        last = next;
    }
    let count = count_of(&rt, alloc, &heap, last)?;
    assert!(rt; count == 64);
    Ok(())
}

/// A class, and ten modules that it includes.
fn with_ten(
    rt: &impl Abort,
    alloc: Global,
    heap: &mut Heap,
    above: ModuleId,
) -> Result<ModuleId, Fail> {
    let class = make(rt, alloc, heap, Some(above))?;
    for _ in 0..10_usize {
        let module = make(rt, alloc, heap, None)?;
        include_in(rt, alloc, heap, class, module)?;
    }
    Ok(class)
}

#[test]
fn a_chain_of_classes_has_ten_modules_each(rt: HostRuntime) -> Result<(), Fail> {
    let alloc = rt.alloc();
    let mut names = Names::new(alloc)?;
    let mut heap = Heap::new(alloc, &mut names)?;
    let mut class = heap.core(CoreClass::Object);
    for _ in 0..1_000_usize {
        class = with_ten(&rt, alloc, &mut heap, class)?;
    }
    let count = count_of(&rt, alloc, &heap, class)?;
    assert!(rt; count == 11_002);
    Ok(())
}
