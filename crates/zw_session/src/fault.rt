//! The exceptions that nodes raise, by the values and modules that they tell.
ghost use Rattle.std.specs.Prelude.{◌≡◌, ◌<◌, IfOk, length};
ghost use Rattle.zw_calls.specs.Fault.{fault_seen};
ghost use Rattle.zw_def_world.specs.Fault.{frozen_fault};
ghost use Rattle.zw_heap.specs.Heap.{sizes_of};
ghost use Rattle.zw_heap.specs.Sound.{IsIn};
ghost use Rattle.zw_heap.specs.declared.value.Value.TheVariants.{Module as ModuleValue};
ghost use Rattle.zw_session.specs.Acts.{fails_class_variable, fails_constant, fails_module, value_told};
ghost use Rattle.zw_session.specs.Step.{IsFault, Step};

use crate::session::Session;
use std::alloc::AllocError;
use zw_fault::{ErrorKind, Raise};
use zw_heap::{ModuleId, Value};
use zw_names::Name;
use zw_ops::{OpFault, frozen, no_module};

impl Session {
    /// The fault of a change of what is frozen.
    pub(crate) fn frozen(&self, value: Value) -> Result<OpFault, AllocError>
        requires { IsIn (sizes_of self.now.heap) value }
        ensures { IfOk result (IsFault self.now (λ J. frozen_fault (value_told J value))) }
    {
        let raise = frozen(self.alloc, value, &self.heap, &self.names)?;
        Ok(OpFault::Refused(raise))
    }

    /// The fault of a class variable that no ancestor of a scope has.
    pub(crate) fn no_class_variable(
        &self,
        scope: ModuleId,
        name: Name,
    ) -> Result<OpFault, AllocError>
        requires scope { IsIn (sizes_of self.now.heap) (ModuleValue scope) }
        requires name { name.0 < length self.now.names }
        ensures { IfOk result (IsFault self.now (fails_class_variable scope name)) }
    {
        let path = self.heap.path(scope).text(self.alloc, &self.names)?;
        let name = self.names.text(name);
        let message = format!(in self.alloc; "uninitialized class variable @@{name} in {path}")?;
        Ok(OpFault::Refused(Raise {
            kind: ErrorKind::NameError,
            message,
        }))
    }

    /// The fault of a constant that none of the modules that were asked has. It tells the first of them.
    pub fn no_constant(&self, asked: ModuleId, name: Name) -> Result<Raise, AllocError>
        requires asked { IsIn (sizes_of self.now.heap) (ModuleValue asked) }
        requires name { name.0 < length self.now.names }
        ensures { IfOk result (λ raise. Step self.now self.now (fails_constant asked name) (λ J. fault_seen raise)) }
    {
        let path = self.heap.path(asked).child(self.alloc, name)?;
        let path = path.text(self.alloc, &self.names)?;
        let message = format!(in self.alloc; "uninitialized constant {path}")?;
        Ok(Raise {
            kind: ErrorKind::NameError,
            message,
        })
    }

    /// The fault of a value that is asked for a constant and is no class or module.
    pub fn no_module(&self, value: Value) -> Result<Raise, AllocError>
        requires { IsIn (sizes_of self.now.heap) value }
        ensures { IfOk result (λ raise. Step self.now self.now (fails_module value) (λ J. fault_seen raise)) }
    {
        no_module(self.alloc, value, &self.heap, &self.names)
    }
}
