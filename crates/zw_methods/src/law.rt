//! A law of lines, for proofs above. The call does nothing.
ghost use Rattle.std.specs.Prelude.{◌≡◌, ◌<◌, List, Some, length, map};
ghost use Rattle.std.specs.List.{All};
ghost use Rattle.zw_def.specs.Text.{Text};
ghost use Rattle.zw_def_world.specs.MethodLine as told;
ghost use Rattle.zw_def_world.specs.World.{World};
ghost use Rattle.zw_heap.specs.Heap.{sizes_of};
ghost use Rattle.zw_heap.specs.Sound.{IsIn};
ghost use Rattle.zw_heap.specs.Telling.{Telling, Fits, Agrees, tell};
ghost use Rattle.zw_heap.specs.declared.value.Value.{Value as Item};
ghost use Rattle.zw_methods.specs.Line.{line_in, told_place};

use zw_consts::{tells_ancestors, tells_superclasses};
use zw_heap::Heap;

/// In each world that agrees with a heap, the line of a receiver is that of its number. All that stands in it is in the
/// heap.
pub fn tells_line(heap: &Heap)
    ensures held { (x : Item) → IsIn (sizes_of heap.now) x
        → All (λ p. p.0 < length heap.now.modules) (line_in heap.now x) }
    ensures line { (I : Telling) (names : List Text) (w : World) (x : Item) → Fits I names heap.now
        → Agrees I heap.now w → IsIn (sizes_of heap.now) x
        → told.line_of w (tell I x) ≡ Some (map (told_place I) (line_in heap.now x)) }
{
    heap.is_sound();
    heap.tells_core();
    tells_ancestors(heap);
    tells_superclasses(heap);
}
