//! Laws of heaps, for proofs above. The calls do nothing.
ghost use Rattle.std.specs.Prelude.{◌≡◌, ℕ, ◌<◌, ◌^◌, List, Some, length};
ghost use Rattle.zw_def.specs.Text.{Text};
ghost use Rattle.zw_def_world.specs.Ancestor.{makes_exceptions};
ghost use Rattle.zw_def_world.specs.CoreClass.{Exception, core_count, main_id};
ghost use Rattle.zw_def_world.specs.Id.{boot_id};
ghost use Rattle.zw_def_world.specs.World.{World};
ghost use Rattle.zw_heap.specs.Change.{Change, changed};
ghost use Rattle.zw_heap.specs.Earlier.{HoldEarlier};
ghost use Rattle.zw_heap.specs.Sound.{IsSound};
ghost use Rattle.zw_heap.specs.Superclass.{descends};
ghost use Rattle.zw_heap.specs.Telling.{Telling, Fits, OnlyAdds, Agrees};

use crate::heap::Heap;
use zw_names::Names;

impl Heap {
    /// What is true of every heap.
    pub fn is_sound(&self)
        ensures sound { IsSound self.now }
        ensures few { length self.now.modules < 2 ^ 64 }
    {
        let _ = &self.alloc;
    }

    /// Each array holds earlier ones alone.
    pub fn holds_earlier(&self)
        ensures { HoldEarlier self.now.arrays }
    {
        let _ = &self.alloc;
    }

    /// Each change only adds: what tells the heap after it tells the heap before.
    pub fn only_adds(&self)
        ensures { (change : Change) → OnlyAdds self.now (changed change self.now) }
    {
        let _ = &self.alloc;
    }

    /// Each telling tells the core classes and modules and `main` by the names that they have in every world.
    pub fn tells_core(&self)
        ensures modules { (I : Telling) (names : List Text) (n : ℕ) → Fits I names self.now → n < core_count
            → I.module_id n ≡ boot_id n }
        ensures main { (I : Telling) (names : List Text) → Fits I names self.now → I.object_id 0 ≡ main_id }
    {
        let _ = &self.alloc;
    }

    /// In each world that agrees with a heap, a class makes exceptions exactly where it is `Exception` or below it.
    pub fn tells_exceptions(&self)
        ensures { (I : Telling) (names : List Text) (w : World) (class : ℕ) → Fits I names self.now
            → Agrees I self.now w → class < length self.now.modules
            → makes_exceptions w (I.module_id class) ≡ Some (descends self.now.modules Exception.count class) }
    {
        self.is_sound();
    }

    /// Each heap is told by some telling, and beside each world there is one that agrees with it.
    pub fn is_told(&self, names: &Names)
        ensures { (w : World) → (I : Telling) × (agreeing : World) × Fits I names.now self.now
            × Agrees I self.now agreeing }
    {
        self.is_sound();
        names.are_distinct();
    }
}
