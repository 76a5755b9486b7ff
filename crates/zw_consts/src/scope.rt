//! Constants of the scopes alone.
ghost use Rattle.std.specs.Prelude.{◌≡◌};
ghost use Rattle.std.specs.Option.{option_map};
ghost use Rattle.zw_consts.specs.Ancestor.{numbers_of};
ghost use Rattle.zw_consts.specs.LookUp.{without, first_slot, placed_seen};
ghost use Rattle.zw_consts.specs.Table.{tables_of};
ghost use Rattle.zw_def_world.specs.CoreClass.{Object_class};

use crate::consts::Consts;
use crate::slot::Slot;
use zw_heap::{CoreClass, Heap, ModuleId};
use zw_names::Name;

/// A slot, and the module whose table has it.
#[derive(Clone, Copy, Debug, PartialEq, Eq)]
pub struct Placed {
    pub at: ModuleId,
    pub slot: Slot,
}

impl Consts {
    /// The first slot of a name in the scopes, the innermost first and without `Object`: what `walk` comes to first. It
    /// takes no memory.
    pub fn slot_in_scopes(&self, heap: &Heap, scopes: &[ModuleId], name: Name) -> Option<Placed>
        ensures { option_map placed_seen result
            ≡ first_slot (tables_of self.now) name.0 (without Object_class.count (numbers_of scopes.now)) }
    {
        let object = heap.core(CoreClass::Object);
        for scope in scopes {
            if object.0 == scope.0 {
                continue;
            }
            if let Some(slot) = self.slot(*scope, name) {
                return Some(Placed { at: *scope, slot });
            }
        }
        None
    }
}
