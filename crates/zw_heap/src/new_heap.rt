//! A new heap.
ghost use Rattle.std.specs.Prelude.{◌≡◌, [], ◌∷◌, ◌++◌, IfOk, map};
ghost use Rattle.std.specs.List.{All};
ghost use Rattle.zw_def.specs.Names.{OnlyGrows, AreNamed, texts_of};
ghost use Rattle.zw_heap.specs.CoreClass.{core_seen, core_module, core_record, core_record_seen, core_records};
ghost use Rattle.zw_heap.specs.New.{IsNew};

use crate::core_class::{CORE_CLASSES, CoreClass};
use crate::heap::Heap;
use crate::module_record::ModuleRecord;
use crate::object_record::ObjectRecord;
use crate::place::Place;
use std::alloc::{AllocError, Global};
use zw_names::{CPath, Names};

/// The name of the module of Zeitwerk's errors.
const ZEITWERK: &str = "Zeitwerk";

/// A path with one more name, which is made where there is none.
fn longer(alloc: Global, names: &mut Names, path: CPath, name: &str) -> Result<CPath, AllocError>
    requires { AreNamed names.old path }
    ensures told { IfOk result (λ more. texts_of names.new more ≡ texts_of names.old path ++ name.now ∷ []) }
    ensures named { IfOk result (λ more. AreNamed names.new more) }
    ensures grows { OnlyGrows names.old names.new }
{
    let name = names.intern(name)?;
    path.child(alloc, name)
}

fn core_path(alloc: Global, names: &mut Names, class: CoreClass) -> Result<CPath, AllocError>
    ensures told { IfOk result (λ path. texts_of names.new path ≡ (core_module class).path) }
    ensures named { IfOk result (λ path. AreNamed names.new path) }
    ensures grows { OnlyGrows names.old names.new }
{
    let path = CPath::object(alloc);
    if class == CoreClass::Object {
        return Ok(path);
    }
    if class.is_of_zeitwerk() {
        let zeitwerk = longer(alloc, names, path, ZEITWERK)?;
        return longer(alloc, names, zeitwerk, class.name());
    }
    longer(alloc, names, path, class.name())
}

fn record_of(alloc: Global, names: &mut Names, class: CoreClass) -> Result<ModuleRecord, AllocError>
    ensures told { IfOk result (λ made.
        core_record_seen names.new made ≡ core_record (core_seen class, core_module class)) }
    ensures named { IfOk result (λ made. AreNamed names.new made.path) }
    ensures grows { OnlyGrows names.old names.new }
{
    let path = core_path(alloc, names, class)?;
    let mut made = ModuleRecord::new(alloc, 0, class.module().0, path, class.kind());
    if class == CoreClass::Object {
        made.add_include(CoreClass::Kernel.module())?;
    }
    Ok(made)
}

fn core_modules(alloc: Global, names: &mut Names) -> Result<Vec<ModuleRecord>, AllocError>
    ensures told { IfOk result (λ made. map (core_record_seen names.new) made.items ≡ core_records) }
    ensures named { IfOk result (λ made. All (λ m. AreNamed names.new m.path) made.items) }
    ensures grows { OnlyGrows names.old names.new }
{
    let mut modules = Vec::new(alloc);
    for class in &CORE_CLASSES {
        modules.push(record_of(alloc, names, *class)?)?;
    }
    Ok(modules)
}

impl Heap {
    /// A heap of the core classes and modules and of `main`, none of them frozen. Where memory runs out, names may have
    /// been made.
    pub fn new(alloc: Global, names: &mut Names) -> Result<Heap, AllocError>
        ensures core { IfOk result (IsNew names.new) }
        ensures grows { OnlyGrows names.old names.new }
    {
        let modules = core_modules(alloc, names)?;
        let mut objects = Vec::new(alloc);
        objects.push(ObjectRecord::new(alloc, 0, CORE_CLASSES.len(), CoreClass::Object.module()))?;
        let mut places = Vec::new(alloc);
        places.push(Place::new(0, None, CORE_CLASSES.len() + 1))?;
        Ok(Heap {
            alloc,
            names: names.len(),
            modules,
            objects,
            texts: Vec::new(alloc),
            arrays: Vec::new(alloc),
            places,
            here: 0,
            setups: 0,
            boot: None,
        })
    }
}
