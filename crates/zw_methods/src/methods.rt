//! Tables of methods.
ghost use Rattle.std.specs.Prelude.{◌≡◌, ◌+◌, IfOk, OnOk, OnErr, length, drop};
ghost use Rattle.std.specs.Option.{option_map};
ghost use Rattle.zw_heap.specs.Heap.{is_frozen_in, sizes_of};
ghost use Rattle.zw_heap.specs.Sound.{IsIn};
ghost use Rattle.zw_heap.specs.declared.value.Value.TheVariants.{Module as ModuleValue};
ghost use Rattle.zw_methods.specs.Methods.{tables_in, no_methods, with_method, first_methods, method_at, first_method, found_seen, AnswersFrozen};

use crate::fault::{MethodFault, MethodRefusal};
use crate::method::{Found, Method, ModuleLine};
use std::alloc::{AllocError, Global};
use std::marker::Model;
use zw_consts::Tables;
use zw_heap::{Heap, ModuleId, Value};
use zw_names::Name;

/// The methods of all modules. Contracts see a list of tables of instances and one of singleton tables, by the numbers of
/// modules, and read them by `tables_in`.
#[derive(Drop)]
pub struct Methods {
    instances: Tables<Method>,
    singletons: Tables<Method>,
}

impl Model for Methods {
    ghost use Rattle.zw_methods.specs.Methods.{Methods as Held};

    ghost Value = { Held };

    ghost view = { λ s. record { instances = s.instances; singletons = s.singletons } };
}

/// Refuses to change a module that is frozen.
pub(crate) fn unless_frozen(heap: &Heap, of: ModuleId) -> Result<(), MethodFault>
    requires { IsIn (sizes_of heap.now) (ModuleValue of) }
    ensures { AnswersFrozen (is_frozen_in heap.now (ModuleValue of)) result }
{
    if heap.is_frozen(Value::Module(of)) {
        return Err(MethodFault::Refused(MethodRefusal::Frozen));
    }
    Ok(())
}

impl Methods {
    /// No methods.
    pub fn new(alloc: Global) -> Result<Methods, AllocError>
        ensures { IfOk result (λ made. tables_in made ≡ no_methods) }
    {
        Ok(Methods {
            instances: Tables::new(alloc),
            singletons: Tables::new(alloc),
        })
    }

    fn put(
        &mut self,
        owner: ModuleId,
        singleton: bool,
        name: Name,
        method: Method,
    ) -> Result<(), AllocError>
        ensures set { OnOk result (tables_in self.new
            ≡ with_method owner.0 singleton name.0 method (tables_in self.old)) }
        ensures unchanged { OnErr result (tables_in self.new ≡ tables_in self.old) }
    {
        if singleton {
            self.singletons.set(owner, name, method)
        } else {
            self.instances.set(owner, name, method)
        }
    }

    /// Defines a method for a module's instances, or for itself (ISO/IEC 30170, 13.3.1 and 13.4.3). One of that name that
    /// is there is replaced. It is refused as frozen exactly where the module is.
    pub fn define(
        &mut self,
        owner: ModuleId,
        singleton: bool,
        name: Name,
        method: Method,
        heap: &Heap,
    ) -> Result<(), MethodFault>
        requires { IsIn (sizes_of heap.now) (ModuleValue owner) }
        ensures set { OnOk result (tables_in self.new
            ≡ with_method owner.0 singleton name.0 method (tables_in self.old)) }
        ensures unchanged { OnErr result (tables_in self.new ≡ tables_in self.old) }
        ensures frozen { AnswersFrozen (is_frozen_in heap.now (ModuleValue owner)) result }
    {
        unless_frozen(heap, owner)?;
        self.put(owner, singleton, name, method)?;
        Ok(())
    }

    /// The method of a name in one table. It takes no memory.
    pub fn method(&self, place: ModuleLine, name: Name) -> Option<Method>
        ensures { result ≡ method_at (tables_in self.now) place name.0 }
    {
        if place.singleton {
            self.singletons.get(place.module, name)
        } else {
            self.instances.get(place.module, name)
        }
    }

    /// The first method of a name from a place of a line on.
    fn find_from(&self, line: &[ModuleLine], start: usize, name: Name) -> Option<Found>
        ensures { option_map found_seen result
            ≡ first_method (tables_in self.now) name.0 start (drop start line.now) }
    {
        for at in start..line.len() {
            if let Some(method) = self.method(line[at], name) {
                return Some(Found { at, method });
            }
        }
        None
    }

    /// The first method of a name in a line (ISO/IEC 30170, 13.3.4). It takes no memory.
    pub fn find(&self, line: &[ModuleLine], name: Name) -> Option<Found>
        ensures { option_map found_seen result ≡ first_method (tables_in self.now) name.0 0 line.now }
    {
        self.find_from(line, 0, name)
    }

    /// The first method of a name in a line behind a place, which is what `super` calls where the running method stands at
    /// that place (ISO/IEC 30170, 11.3.3). It takes no memory.
    pub fn find_super(&self, line: &[ModuleLine], after: usize, name: Name) -> Option<Found>
        ensures { option_map found_seen result
            ≡ first_method (tables_in self.now) name.0 (after + 1) (drop (after + 1) line.now) }
    {
        if after >= line.len() {
            return None;
        }
        self.find_from(line, after + 1, name)
    }

    /// The present tables of the modules of a heap alone.
    pub fn copy_boot(&self, heap: &Heap) -> Result<Methods, AllocError>
        ensures { IfOk result (λ copy. tables_in copy
            ≡ first_methods (length heap.now.modules) (tables_in self.now)) }
    {
        let count = heap.module_count();
        Ok(Methods {
            instances: self.instances.copy_first(count)?,
            singletons: self.singletons.copy_first(count)?,
        })
    }
}
