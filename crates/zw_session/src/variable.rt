//! Instance variables and class variables (ISO/IEC 30170, 11.5.4.6 and 11.5.4.7).
ghost use Rattle.std.specs.Prelude.{◌≡◌, ◌<◌, Option, IfOk, IfSome, length};
ghost use Rattle.std.specs.Option.{option_map};
ghost use Rattle.zw_def_world.specs.Act.{Act};
ghost use Rattle.zw_def_world.specs.Id.{Id};
ghost use Rattle.zw_heap.specs.Heap.{sizes_of};
ghost use Rattle.zw_heap.specs.Sound.{IsIn};
ghost use Rattle.zw_heap.specs.declared.value.Value.TheVariants.{Module as ModuleValue};
ghost use Rattle.zw_session.specs.Acts.{asks_holder, gives_value, id_told, reads_variable, writes_variable, reads_class_variable, writes_class_variable};
ghost use Rattle.zw_session.specs.Step.{Step, Steps, Keeps};

use crate::session::Session;
use std::alloc::AllocError;
use zw_consts::{ancestors, tells_ancestors};
use zw_heap::{HeapFault, ModuleId, Value};
use zw_names::Name;
use zw_ops::{OpFault, cvar_place};

impl Session {
    /// The value of an instance variable: nil where it was not set.
    pub fn ivar(&self, of: Value, name: Name) -> Value
        requires { IsIn (sizes_of self.now.heap) of }
        ensures held { IsIn (sizes_of self.now.heap) result }
        ensures step { Step self.now self.now (reads_variable of name) (gives_value result) }
    {
        self.heap.get_ivar(of, name).unwrap_or(Value::Nil)
    }

    /// Sets an instance variable of what is not frozen.
    pub fn set_ivar(&mut self, of: Value, name: Name, to: Value) -> Result<(), OpFault>
        requires of { IsIn (sizes_of self.old.heap) of }
        requires name { name.0 < length self.old.names }
        requires to { IsIn (sizes_of self.old.heap) to }
        ensures keeps { Keeps self.old self.new }
        ensures steps { Steps self.old self.new (writes_variable of name to) (λ x. gives_value to) result }
    {
        self.heap.only_adds();
        match self.heap.set_ivar(of, name, to) {
            Ok(()) => Ok(()),
            Err(HeapFault::Refused(_)) => Err(self.frozen(of)?),
            Err(HeapFault::Memory) => Err(OpFault::Memory),
        }
    }

    /// The first of a scope's ancestors that has a class variable.
    fn class_variable_holder(
        &self,
        scope: ModuleId,
        name: Name,
    ) -> Result<Option<ModuleId>, AllocError>
        requires { IsIn (sizes_of self.now.heap) (ModuleValue scope) }
        ensures held { IfOk result (λ holder. IfSome holder (λ m. IsIn (sizes_of self.now.heap) (ModuleValue m))) }
        ensures step { IfOk result (λ holder. (k : Option Id → Act) → Step self.now self.now
            (asks_holder scope name k) (λ J. k (option_map (id_told J) holder))) }
    {
        tells_ancestors(&self.heap);
        let line = ancestors(self.alloc, &self.heap, scope)?;
        Ok(cvar_place(&self.heap, &line, name))
    }

    /// The value of a class variable, as a scope has it.
    pub fn class_variable(&self, scope: ModuleId, name: Name) -> Result<Value, OpFault>
        requires scope { IsIn (sizes_of self.now.heap) (ModuleValue scope) }
        requires name { name.0 < length self.now.names }
        ensures held { IfOk result (IsIn (sizes_of self.now.heap)) }
        ensures steps { Steps self.now self.now (reads_class_variable scope name) gives_value result }
    {
        let Some(holder) = self.class_variable_holder(scope, name)? else {
            return Err(self.no_class_variable(scope, name)?);
        };
        Ok(self.heap.get_cvar(holder, name).unwrap_or(Value::Nil))
    }

    /// Sets a class variable where a scope has it, and else of the scope itself.
    pub fn set_class_variable(
        &mut self,
        scope: ModuleId,
        name: Name,
        to: Value,
    ) -> Result<(), OpFault>
        requires scope { IsIn (sizes_of self.old.heap) (ModuleValue scope) }
        requires name { name.0 < length self.old.names }
        requires to { IsIn (sizes_of self.old.heap) to }
        ensures keeps { Keeps self.old self.new }
        ensures steps { Steps self.old self.new (writes_class_variable scope name to) (λ x. gives_value to) result }
    {
        self.heap.only_adds();
        let holder = self.class_variable_holder(scope, name)?.unwrap_or(scope);
        match self.heap.set_cvar(holder, name, to) {
            Ok(()) => Ok(()),
            Err(HeapFault::Refused(_)) => Err(self.frozen(Value::Module(holder))?),
            Err(HeapFault::Memory) => Err(OpFault::Memory),
        }
    }
}
