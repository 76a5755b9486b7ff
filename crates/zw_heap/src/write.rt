//! Changes of one record. A frozen record does not change.
ghost use Rattle.std.specs.Prelude.{◌≡◌, ◌<◌, true, false, OnOk, OnErr, IfErr};
ghost use Rattle.zw_base.specs.declared.fault.Fault.TheVariants.{Refused};
ghost use Rattle.zw_heap.specs.Founded.{is_class_at};
ghost use Rattle.zw_heap.specs.Heap.{at_module, at_object, with_ivar, with_frozen, is_frozen_in, sizes_of};
ghost use Rattle.zw_heap.specs.ModuleRecord.{with_include, with_extension, with_class_variable};
ghost use Rattle.zw_heap.specs.ObjectRecord.{with_message};
ghost use Rattle.zw_heap.specs.Reach.{Reaches};
ghost use Rattle.zw_heap.specs.Refusal.{AnswersFrozen};
ghost use Rattle.zw_heap.specs.Sound.{IsIn, Stays};
ghost use Rattle.zw_heap.specs.declared.fault.HeapRefusal.TheVariants.{Frozen};
ghost use Rattle.zw_heap.specs.declared.value.Value.TheVariants.{Module as ModuleValue, Object as ObjectValue};

use crate::fault::{HeapFault, HeapRefusal};
use crate::heap::Heap;
use crate::value::{ModuleId, ObjRef, Value};
use zw_names::Name;

/// Refuses to change a record that is frozen.
fn unless_frozen(is_frozen: bool) -> Result<(), HeapFault>
    ensures free { OnOk result (is_frozen ≡ false) }
    ensures frozen { IfErr result (λ fault. (is_frozen ≡ true) × (fault ≡ Refused Frozen)) }
{
    if is_frozen {
        return Err(HeapFault::Refused(HeapRefusal::Frozen));
    }
    Ok(())
}

impl Heap {
    fn set_object_ivar(&mut self, of: ObjRef, name: Name, to: Value) -> Result<(), HeapFault>
        requires of { IsIn (sizes_of self.old) (ObjectValue of) }
        requires name { name.0 < self.old.names }
        requires to { IsIn (sizes_of self.old) to }
        ensures set { OnOk result (self.new ≡ with_ivar (ObjectValue of) name.0 to self.old) }
        ensures unchanged { OnErr result (self.new ≡ self.old) }
        ensures frozen { AnswersFrozen (is_frozen_in self.old (ObjectValue of)) result }
        ensures stays { Stays self.old self.new }
    {
        let record = &mut self.objects[of.0];
        unless_frozen(record.is_frozen())?;
        record.set_variable(name, to)?;
        Ok(())
    }

    fn set_module_ivar(&mut self, of: ModuleId, name: Name, to: Value) -> Result<(), HeapFault>
        requires of { IsIn (sizes_of self.old) (ModuleValue of) }
        requires name { name.0 < self.old.names }
        requires to { IsIn (sizes_of self.old) to }
        ensures set { OnOk result (self.new ≡ with_ivar (ModuleValue of) name.0 to self.old) }
        ensures unchanged { OnErr result (self.new ≡ self.old) }
        ensures frozen { AnswersFrozen (is_frozen_in self.old (ModuleValue of)) result }
        ensures stays { Stays self.old self.new }
    {
        let record = &mut self.modules[of.0];
        unless_frozen(record.is_frozen())?;
        record.set_variable(name, to)?;
        Ok(())
    }

    /// Sets an instance variable of a module or object.
    pub fn set_ivar(&mut self, of: Value, name: Name, to: Value) -> Result<(), HeapFault>
        requires of { IsIn (sizes_of self.old) of }
        requires name { name.0 < self.old.names }
        requires to { IsIn (sizes_of self.old) to }
        ensures set { OnOk result (self.new ≡ with_ivar of name.0 to self.old) }
        ensures unchanged { OnErr result (self.new ≡ self.old) }
        ensures frozen { AnswersFrozen (is_frozen_in self.old of) result }
        ensures stays { Stays self.old self.new }
    {
        match of {
            Value::Object(object) => self.set_object_ivar(object, name, to),
            Value::Module(module) => self.set_module_ivar(module, name, to),
            _ => Err(HeapFault::Refused(HeapRefusal::Frozen)),
        }
    }

    /// Sets a class variable of a class or module.
    pub fn set_cvar(&mut self, of: ModuleId, name: Name, to: Value) -> Result<(), HeapFault>
        requires of { IsIn (sizes_of self.old) (ModuleValue of) }
        requires name { name.0 < self.old.names }
        requires to { IsIn (sizes_of self.old) to }
        ensures set { OnOk result (self.new ≡ at_module of (with_class_variable name.0 to) self.old) }
        ensures unchanged { OnErr result (self.new ≡ self.old) }
        ensures frozen { AnswersFrozen (is_frozen_in self.old (ModuleValue of)) result }
        ensures stays { Stays self.old self.new }
    {
        let record = &mut self.modules[of.0];
        unless_frozen(record.is_frozen())?;
        record.set_class_variable(name, to)?;
        Ok(())
    }

    /// A class or module includes one more module, which becomes the first. That is no class, and does not lead to it.
    pub fn add_include(&mut self, to: ModuleId, added: ModuleId) -> Result<(), HeapFault>
        requires to { IsIn (sizes_of self.old) (ModuleValue to) }
        requires added { IsIn (sizes_of self.old) (ModuleValue added) }
        requires plain { is_class_at self.old.modules added.0 false }
        requires apart { Reaches self.old.modules added.0 to.0 → ⊥ }
        ensures set { OnOk result (self.new ≡ at_module to (with_include added) self.old) }
        ensures unchanged { OnErr result (self.new ≡ self.old) }
        ensures frozen { AnswersFrozen (is_frozen_in self.old (ModuleValue to)) result }
        ensures stays { Stays self.old self.new }
    {
        let record = &mut self.modules[to.0];
        unless_frozen(record.is_frozen())?;
        record.add_include(added)?;
        Ok(())
    }

    /// A class or module is extended by one more module, which becomes the first.
    pub fn add_extension(&mut self, to: ModuleId, added: ModuleId) -> Result<(), HeapFault>
        requires to { IsIn (sizes_of self.old) (ModuleValue to) }
        requires added { IsIn (sizes_of self.old) (ModuleValue added) }
        ensures set { OnOk result (self.new ≡ at_module to (with_extension added) self.old) }
        ensures unchanged { OnErr result (self.new ≡ self.old) }
        ensures frozen { AnswersFrozen (is_frozen_in self.old (ModuleValue to)) result }
        ensures stays { Stays self.old self.new }
    {
        let record = &mut self.modules[to.0];
        unless_frozen(record.is_frozen())?;
        record.add_extension(added)?;
        Ok(())
    }

    /// An exception keeps a text.
    pub fn set_message(&mut self, of: ObjRef, text: &str) -> Result<(), HeapFault>
        requires of { IsIn (sizes_of self.old) (ObjectValue of) }
        ensures set { OnOk result (self.new ≡ at_object of.0 (with_message text.now) self.old) }
        ensures unchanged { OnErr result (self.new ≡ self.old) }
        ensures frozen { AnswersFrozen (is_frozen_in self.old (ObjectValue of)) result }
        ensures stays { Stays self.old self.new }
    {
        let record = &mut self.objects[of.0];
        unless_frozen(record.is_frozen())?;
        record.set_message(self.alloc, text)?;
        Ok(())
    }

    /// Freezes a value for good. All but modules and objects are frozen anyway.
    pub fn freeze(&mut self, of: Value)
        requires { IsIn (sizes_of self.old) of }
        ensures frozen { self.new ≡ with_frozen of self.old }
        ensures stays { Stays self.old self.new }
    {
        match of {
            Value::Object(object) => self.objects[object.0].freeze(),
            Value::Module(module) => self.modules[module.0].freeze(),
            _ => {}
        }
    }
}
