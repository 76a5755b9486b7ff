//! Classes and modules that statements open or make (ISO/IEC 30170, 13.1.2 and 13.2.2).
ghost use Rattle.std.specs.Prelude.{◌≡◌, ◌<◌, Option, IfOk, IfSome, length};
ghost use Rattle.std.specs.Option.{option_map};
ghost use Rattle.zw_def_world.specs.Act.{Act};
ghost use Rattle.zw_def_world.specs.Id.{Id};
ghost use Rattle.zw_heap.specs.Heap.{sizes_of};
ghost use Rattle.zw_heap.specs.Sound.{IsIn, KindIn};
ghost use Rattle.zw_heap.specs.declared.value.Value.TheVariants.{Module as ModuleValue};
ghost use Rattle.zw_session.specs.Acts.{IsPlaced, id_told, makes_module_of, opens_found, open_chosen};
ghost use Rattle.zw_session.specs.Step.{Step, Steps, Keeps};

use crate::session::Session;
use std::alloc::AllocError;
use zw_heap::{CoreClass, ModuleId, ModuleKind, Value};
use zw_names::Name;
use zw_ops::{OpFault, OpenAct, choose_open};

impl Session {
    /// What a class or module statement does with a name under which something may stand.
    pub fn choose_open(
        &self,
        found: Option<Value>,
        kind: ModuleKind,
        name: Name,
    ) -> Result<OpenAct, OpFault>
        requires found { IfSome found (IsIn (sizes_of self.now.heap)) }
        requires name { name.0 < length self.now.names }
        ensures steps { (i : Id) (go_on : Id → Act) → Steps self.now self.now
            (opens_found kind i name go_on found) (open_chosen kind i name go_on) result }
    {
        choose_open(self.alloc, &self.heap, &self.names, found, kind, name)
    }

    /// The kind of what is made: a class without a superclass stands below `Object`.
    fn placed(&self, kind: ModuleKind) -> ModuleKind
        requires { KindIn (sizes_of self.now.heap) kind }
        ensures held { KindIn (sizes_of self.now.heap) result }
        ensures placed { IsPlaced kind result }
    {
        let object = self.heap.core(CoreClass::Object);
        match kind {
            ModuleKind::Class(None) => ModuleKind::Class(Some(object)),
            ModuleKind::Class(Some(superclass)) => ModuleKind::Class(Some(superclass)),
            ModuleKind::Module => ModuleKind::Module,
        }
    }

    /// Makes a class or module as a constant of a module. A class without a superclass stands below `Object`.
    pub fn make_module(
        &mut self,
        of: ModuleId,
        name: Name,
        kind: ModuleKind,
    ) -> Result<ModuleId, AllocError>
        requires of { IsIn (sizes_of self.old.heap) (ModuleValue of) }
        requires name { name.0 < length self.old.names }
        requires kind { KindIn (sizes_of self.old.heap) kind }
        ensures keeps { Keeps self.old self.new }
        ensures held { IfOk result (λ made. IsIn (sizes_of self.new.heap) (ModuleValue made)) }
        ensures makes { IfOk result (λ made. (k : Id → Act) → Step self.old self.new
            (makes_module_of kind of name k) (λ J. k (id_told J made))) }
    {
        self.heap.is_sound();
        self.heap.tells_core();
        self.heap.only_adds();
        let kind = self.placed(kind);
        let path = self.heap.path(of).child(self.alloc, name)?;
        let made = self.heap.make_module(path, kind)?;
        self.constants.set(of, name, Value::Module(made))?;
        Ok(made)
    }
}
