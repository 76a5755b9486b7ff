//! What boot leaves: its records are frozen for good, and can be copied.
ghost use Rattle.std.specs.Prelude.{◌≡◌, IfOk, IsSome, Some, length, map};
ghost use Rattle.std.specs.String.{string_bytes};
ghost use Rattle.std.specs.Option.{option_map};
ghost use Rattle.zw_heap.specs.Heap.{with_boot, boot_of, sizes_of};
ghost use Rattle.zw_heap.specs.ModuleRecord.{frozen_module};
ghost use Rattle.zw_heap.specs.ObjectRecord.{frozen_object};
ghost use Rattle.zw_heap.specs.Sound.{Stays};

use crate::array_record::ArrayRecord;
use crate::heap::Heap;
use crate::mark::{Mark, Sizes};
use crate::module_record::ModuleRecord;
use crate::object_record::ObjectRecord;
use crate::place::Place;
use std::alloc::{AllocError, Global};

fn freeze_modules(modules: &mut [ModuleRecord])
    ensures { modules.new ≡ map frozen_module modules.old }
{
    for record in modules.iter_mut() {
        record.freeze();
    }
}

fn freeze_objects(objects: &mut [ObjectRecord])
    ensures { objects.new ≡ map frozen_object objects.old }
{
    for record in objects.iter_mut() {
        record.freeze();
    }
}

fn copy_modules(alloc: Global, modules: &[ModuleRecord]) -> Result<Vec<ModuleRecord>, AllocError>
    ensures { IfOk result (λ copy. copy.items ≡ modules.now) }
{
    let mut copy = Vec::new(alloc);
    for record in modules {
        copy.push(record.copy(alloc)?)?;
    }
    Ok(copy)
}

fn copy_objects(alloc: Global, objects: &[ObjectRecord]) -> Result<Vec<ObjectRecord>, AllocError>
    ensures { IfOk result (λ copy. copy.items ≡ objects.now) }
{
    let mut copy = Vec::new(alloc);
    for record in objects {
        copy.push(record.copy(alloc)?)?;
    }
    Ok(copy)
}

fn copy_arrays(alloc: Global, arrays: &[ArrayRecord]) -> Result<Vec<ArrayRecord>, AllocError>
    ensures { IfOk result (λ copy. copy.items ≡ arrays.now) }
{
    let mut copy = Vec::new(alloc);
    for array in arrays {
        copy.push(array.copy(alloc)?)?;
    }
    Ok(copy)
}

fn copy_texts(alloc: Global, texts: &[String]) -> Result<Vec<String>, AllocError>
    ensures { IfOk result (λ copy. map string_bytes copy.items ≡ map string_bytes texts.now) }
{
    let mut copy = Vec::new(alloc);
    for text in texts {
        copy.push(String::from_str(alloc, text.as_str())?)?;
    }
    Ok(copy)
}

impl Heap {
    fn sizes(&self) -> Sizes
        ensures { result ≡ sizes_of self.now }
    {
        Sizes {
            names: self.names,
            modules: self.modules.len(),
            objects: self.objects.len(),
            texts: self.texts.len(),
            arrays: self.arrays.len(),
        }
    }

    /// Freezes all modules and objects for good, and notes what stands now as what boot left. No setup has begun.
    pub fn freeze_boot(&mut self)
        requires { length self.old.places ≡ 1 }
        ensures frozen { self.new ≡ with_boot self.old }
        ensures stays { Stays self.old self.new }
    {
        let sizes = self.sizes();
        let count = self.places[0].count();
        freeze_modules(&mut self.modules);
        freeze_objects(&mut self.objects);
        self.boot = Some(Mark { sizes, count });
    }

    /// A heap of what stood when `freeze_boot` was called last, under the same numbers, and of nothing else. No setup
    /// has begun in it.
    pub fn copy_boot(&self) -> Result<Heap, AllocError>
        requires { IsSome self.now.boot }
        ensures { IfOk result (λ copy. option_map (λ mark. boot_of mark self.now) self.now.boot ≡ Some copy) }
    {
        let Some(mark) = self.boot else {
            unreachable!()
        };
        let mut places = Vec::new(self.alloc);
        places.push(Place::new(0, None, mark.count))?;
        Ok(Heap {
            alloc: self.alloc,
            names: mark.sizes.names,
            modules: copy_modules(self.alloc, &self.modules[..mark.sizes.modules])?,
            objects: copy_objects(self.alloc, &self.objects[..mark.sizes.objects])?,
            texts: copy_texts(self.alloc, &self.texts[..mark.sizes.texts])?,
            arrays: copy_arrays(self.alloc, &self.arrays[..mark.sizes.arrays])?,
            places,
            here: 0,
            setups: 0,
            boot: Some(mark),
        })
    }
}
