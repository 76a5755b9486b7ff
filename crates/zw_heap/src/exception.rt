//! Which classes make exceptions.
ghost use Rattle.std.specs.Prelude.{◌≡◌, ◌<◌, IfSome, Some, slice_get};
ghost use Rattle.std.specs.Option.{option_map};
ghost use Rattle.zw_def_world.specs.CoreClass.{Exception};
ghost use Rattle.zw_heap.specs.Heap.{sizes_of};
ghost use Rattle.zw_heap.specs.Sound.{IsIn};
ghost use Rattle.zw_heap.specs.Superclass.{superclass_in, descends};
ghost use Rattle.zw_heap.specs.declared.value.Value.TheVariants.{Module as ModuleValue};

use crate::core_class::CoreClass;
use crate::heap::Heap;
use crate::value::{ModuleId, ModuleKind};

impl Heap {
    /// The superclass of a class, if it has one. A module has none.
    pub fn superclass(&self, of: ModuleId) -> Option<ModuleId>
        requires { IsIn (sizes_of self.now) (ModuleValue of) }
        ensures class { option_map (λ m. superclass_in m.kind) (slice_get self.now.modules of.0)
            ≡ Some (option_map (λ m. m.0) result) }
        ensures first { IfSome result (λ superclass. superclass.0 < of.0) }
    {
        self.is_sound();
        match self.kind(of) {
            ModuleKind::Module => None,
            ModuleKind::Class(superclass) => superclass,
        }
    }

    /// Whether the objects of a class are exceptions: it is `Exception`, or has it among its superclasses (ISO/IEC
    /// 30170, 15.2.22).
    pub fn makes_exceptions(&self, class: ModuleId) -> bool
        requires { IsIn (sizes_of self.now) (ModuleValue class) }
        ensures { result ≡ descends self.now.modules Exception.count class.0 }
    {
        self.is_sound();
        let exception = CoreClass::Exception.module();
        let mut next = Some(class);
        while let Some(module) = next {
            if module == exception {
                return true;
            }
            next = self.superclass(module);
        }
        false
    }
}
