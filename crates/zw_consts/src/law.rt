//! Laws of ancestors and look-ups, for proofs above. The calls do nothing.
ghost use Rattle.std.specs.Prelude.{◌≡◌, ℕ, ◌<◌, ◌↔◌, true, List, Some, length, map};
ghost use Rattle.std.specs.List.{All};
ghost use Rattle.zw_def.specs.Text.{Text};
ghost use Rattle.zw_def_world.specs.Ancestor.{ancestors};
ghost use Rattle.zw_def_world.specs.LookUp as told;
ghost use Rattle.zw_def_world.specs.MethodLine.{superclasses};
ghost use Rattle.zw_def_world.specs.World.{World};
ghost use Rattle.zw_heap.specs.Reach.{Reaches};
ghost use Rattle.zw_heap.specs.Telling.{Telling, Fits, Agrees};
ghost use Rattle.zw_consts.specs.Ancestor.{is_among, ancestors_of, superclasses_of};
ghost use Rattle.zw_consts.specs.LookUp.{unscoped_modules, scoped_modules};

use zw_heap::{CoreClass, Heap};

/// In each world that agrees with a heap, the ancestors of a module are those of its number. All are in the heap.
pub fn tells_ancestors(heap: &Heap)
    ensures held { (n : ℕ) → n < length heap.now.modules
        → All (λ m. m < length heap.now.modules) (ancestors_of heap.now.modules n) }
    ensures line { (I : Telling) (names : List Text) (w : World) (n : ℕ) → Fits I names heap.now
        → Agrees I heap.now w → n < length heap.now.modules
        → ancestors w (I.module_id n) ≡ Some (map I.module_id (ancestors_of heap.now.modules n)) }
{
    heap.is_sound();
}

/// And so are its superclasses, all of which are in the heap.
pub fn tells_superclasses(heap: &Heap)
    ensures held { (n : ℕ) → n < length heap.now.modules
        → All (λ m. m < length heap.now.modules) (superclasses_of heap.now.modules n) }
    ensures line { (I : Telling) (names : List Text) (w : World) (n : ℕ) → Fits I names heap.now
        → Agrees I heap.now w → n < length heap.now.modules
        → superclasses w (I.module_id n) ≡ Some (map I.module_id (superclasses_of heap.now.modules n)) }
{
    heap.is_sound();
}

/// And so are the modules that are asked for a constant.
pub fn tells_walk(heap: &Heap)
    ensures unscoped { (I : Telling) (names : List Text) (w : World) (ns : List ℕ) → Fits I names heap.now
        → Agrees I heap.now w → All (λ n. n < length heap.now.modules) ns
        → told.unscoped_modules w (map I.module_id ns)
        ≡ Some (map I.module_id (unscoped_modules heap.now.modules ns)) }
    ensures scoped { (I : Telling) (names : List Text) (w : World) (n : ℕ) → Fits I names heap.now
        → Agrees I heap.now w → n < length heap.now.modules
        → told.scoped_modules w (I.module_id n) ≡ Some (map I.module_id (scoped_modules heap.now.modules n)) }
{
    heap.is_sound();
    heap.tells_core();
    heap.core(CoreClass::Object);
}

/// The ancestors of a module are what it leads to by superclasses and includes.
pub fn ancestors_are_reached(heap: &Heap)
    ensures { (n m : ℕ) → n < length heap.now.modules
        → (is_among (ancestors_of heap.now.modules n) m ≡ true) ↔ Reaches heap.now.modules n m }
{
    heap.is_sound();
}
