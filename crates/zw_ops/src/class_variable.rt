//! Where class variables stand (ISO/IEC 30170, 11.5.4.7).
ghost use Rattle.std.specs.Prelude.{◌≡◌, ◌<◌, List, Some, IfSome, length, map};
ghost use Rattle.std.specs.List.{All};
ghost use Rattle.std.specs.Option.{option_map};
ghost use Rattle.zw_consts.specs.Ancestor.{numbers_of};
ghost use Rattle.zw_def.specs.Text.{Text};
ghost use Rattle.zw_def_world.specs.Variable.{holder_among};
ghost use Rattle.zw_def_world.specs.World.{World};
ghost use Rattle.zw_heap.specs.Telling.{Telling, Fits, Agrees};

use zw_heap::{Heap, ModuleId};
use zw_names::Name;

/// The first of several modules that has a class variable.
pub fn cvar_place(heap: &Heap, line: &[ModuleId], name: Name) -> Option<ModuleId>
    requires { All (λ m. m.0 < length heap.now.modules) line.now }
    ensures held { IfSome result (λ m. m.0 < length heap.now.modules) }
    ensures told { (I : Telling) (names : List Text) (w : World) → Fits I names heap.now → Agrees I heap.now w
        → holder_among w (I.name name.0) (map I.module_id (numbers_of line.now))
        ≡ Some (option_map (λ m. I.module_id m.0) result) }
{
    for module in line {
        if heap.get_cvar(*module, name).is_some() {
            return Some(*module);
        }
    }
    None
}
