//! Constants, and the modules that are asked for them (ISO/IEC 30170, 11.5.4.2).
ghost use Rattle.std.specs.Prelude.{◌≡◌, ◌<◌, Option, IfOk, IfSome, List, length};
ghost use Rattle.std.specs.List.{All};
ghost use Rattle.std.specs.Option.{option_map};
ghost use Rattle.zw_def_syntax.specs.Tree.{Tree as Node};
ghost use Rattle.zw_def_world.specs.Act.{Act};
ghost use Rattle.zw_def_world.specs.Id.{Id};
ghost use Rattle.zw_def_world.specs.Value as told;
ghost use Rattle.zw_heap.specs.Heap.{sizes_of};
ghost use Rattle.zw_heap.specs.Sound.{IsIn};
ghost use Rattle.zw_heap.specs.Telling.{told_ids};
ghost use Rattle.zw_heap.specs.declared.value.Value.TheVariants.{Module as ModuleValue};
ghost use Rattle.zw_session.specs.Acts.{asks_constant, asks_scoped, asks_unscoped, gives_value, value_told, writes_constant};
ghost use Rattle.zw_session.specs.Step.{Step, Keeps};

use crate::session::Session;
use std::alloc::AllocError;
use zw_consts::{tells_walk, walk, walk_below};
use zw_heap::{ModuleId, Value};
use zw_names::Name;

impl Session {
    /// The constant of a module's own table.
    pub fn constant(&self, of: ModuleId, name: Name) -> Option<Value>
        requires { IsIn (sizes_of self.now.heap) (ModuleValue of) }
        ensures held { IfSome result (IsIn (sizes_of self.now.heap)) }
        ensures asks { (go : Node → Act) (k : Option told.Value → Act) → Step self.now self.now
            (asks_constant of name go k) (λ J. k (option_map (value_told J) result)) }
    {
        self.constants.get(of, name)
    }

    /// The modules that are asked for a constant whose name alone is written, within these scopes.
    pub fn unscoped(&self, scopes: &[ModuleId]) -> Result<Vec<ModuleId>, AllocError>
        requires { All (λ m. m.0 < length self.now.heap.modules) scopes.now }
        ensures held { IfOk result (λ asked. All (λ m. m.0 < length self.now.heap.modules) asked.items) }
        ensures asks { IfOk result (λ asked. (k : List Id → Act) → Step self.now self.now
            (asks_unscoped scopes.now k) (λ J. k (told_ids J.telling asked.items))) }
    {
        tells_walk(&self.heap);
        let asked = walk(self.alloc, &self.heap, scopes)?;
        Ok(asked)
    }

    /// The modules that are asked for a constant of a module.
    pub fn scoped(&self, of: ModuleId) -> Result<Vec<ModuleId>, AllocError>
        requires { IsIn (sizes_of self.now.heap) (ModuleValue of) }
        ensures held { IfOk result (λ asked. All (λ m. m.0 < length self.now.heap.modules) asked.items) }
        ensures asks { IfOk result (λ asked. (k : List Id → Act) → Step self.now self.now
            (asks_scoped of k) (λ J. k (told_ids J.telling asked.items))) }
    {
        tells_walk(&self.heap);
        let asked = walk_below(self.alloc, &self.heap, of)?;
        Ok(asked)
    }

    /// Sets a constant in a module's own table.
    pub fn set_constant(&mut self, of: ModuleId, name: Name, to: Value) -> Result<(), AllocError>
        requires of { IsIn (sizes_of self.old.heap) (ModuleValue of) }
        requires name { name.0 < length self.old.names }
        requires to { IsIn (sizes_of self.old.heap) to }
        ensures keeps { Keeps self.old self.new }
        ensures sets { IfOk result (λ x. Step self.old self.new (writes_constant of name to) (gives_value to)) }
    {
        self.constants.set(of, name, to)?;
        Ok(())
    }
}
