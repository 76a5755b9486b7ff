//! What a heap tells. Nothing here takes memory.
ghost use Rattle.std.specs.Prelude.{◌≡◌, ◌<◌, Some, IfSome, nat_eq, slice_get, length};
ghost use Rattle.std.specs.List.{All};
ghost use Rattle.std.specs.Map.{lookup};
ghost use Rattle.std.specs.Option.{option_map};
ghost use Rattle.zw_heap.specs.CoreClass.{core_seen};
ghost use Rattle.zw_heap.specs.Heap.{class_in, is_frozen_in, variables_in, sizes_of};
ghost use Rattle.zw_heap.specs.Sound.{IsIn};
ghost use Rattle.zw_heap.specs.declared.value.Value.TheVariants.{Module as ModuleValue, Object as ObjectValue};

use crate::core_class::CoreClass;
use crate::heap::Heap;
use crate::value::{ArrayRef, ModuleId, ModuleKind, ObjRef, TextRef, Value};
use zw_names::{CPath, Name};

impl Heap {
    /// A core class or module.
    pub fn core(&self, class: CoreClass) -> ModuleId
        ensures number { result.0 ≡ (core_seen class).count }
        ensures held { IsIn (sizes_of self.now) (ModuleValue result) }
    {
        let _ = &self.alloc;
        class.module()
    }

    /// The object `main`.
    pub fn main(&self) -> ObjRef
        ensures number { result.0 ≡ 0 }
        ensures held { IsIn (sizes_of self.now) (ObjectValue result) }
    {
        let _ = &self.alloc;
        ObjRef(0)
    }

    /// The class of a value.
    pub fn class_of(&self, of: Value) -> ModuleId
        requires { IsIn (sizes_of self.now) of }
        ensures class { class_in self.now of ≡ Some result.0 }
        ensures held { IsIn (sizes_of self.now) (ModuleValue result) }
    {
        match of {
            Value::Nil => self.core(CoreClass::NilClass),
            Value::True => self.core(CoreClass::TrueClass),
            Value::False => self.core(CoreClass::FalseClass),
            Value::Int(_) => self.core(CoreClass::Integer),
            Value::Text(_) => self.core(CoreClass::String),
            Value::Sym(_) => self.core(CoreClass::Symbol),
            Value::Array(_) => self.core(CoreClass::Array),
            Value::Object(object) => self.objects[object.0].class(),
            Value::Module(module) => self.class_of_module(module),
        }
    }

    fn class_of_module(&self, of: ModuleId) -> ModuleId
        requires { IsIn (sizes_of self.now) (ModuleValue of) }
        ensures class { class_in self.now (ModuleValue of) ≡ Some result.0 }
        ensures held { IsIn (sizes_of self.now) (ModuleValue result) }
    {
        match self.kind(of) {
            ModuleKind::Module => self.core(CoreClass::Module),
            ModuleKind::Class(_) => self.core(CoreClass::Class),
        }
    }

    /// The path of a class or module.
    pub fn path(&self, of: ModuleId) -> &CPath
        requires { IsIn (sizes_of self.now) (ModuleValue of) }
        ensures path { option_map (λ m. m.path) (slice_get self.now.modules of.0) ≡ Some result.now }
        ensures named { All (λ n. n < self.now.names) result.now }
    {
        self.modules[of.0].path()
    }

    /// Whether it is a module, or a class and what its superclass is.
    pub fn kind(&self, of: ModuleId) -> ModuleKind
        requires { IsIn (sizes_of self.now) (ModuleValue of) }
        ensures { option_map (λ m. m.kind) (slice_get self.now.modules of.0) ≡ Some result }
    {
        self.modules[of.0].kind()
    }

    /// The modules that it includes itself, the last one first.
    pub fn includes(&self, of: ModuleId) -> &[ModuleId]
        requires { IsIn (sizes_of self.now) (ModuleValue of) }
        ensures { option_map (λ m. m.includes) (slice_get self.now.modules of.0) ≡ Some result.now }
    {
        self.modules[of.0].includes()
    }

    /// The modules that it is extended by itself, the last one first.
    pub fn extensions(&self, of: ModuleId) -> &[ModuleId]
        requires { IsIn (sizes_of self.now) (ModuleValue of) }
        ensures { option_map (λ m. m.extensions) (slice_get self.now.modules of.0) ≡ Some result.now }
    {
        self.modules[of.0].extensions()
    }

    /// The bytes of a text.
    pub fn text(&self, of: TextRef) -> &str
        requires { of.0 < length self.now.texts }
        ensures { slice_get self.now.texts of.0 ≡ Some result.now }
    {
        self.texts[of.0].as_str()
    }

    /// The items of an array.
    pub fn items(&self, of: ArrayRef) -> &[Value]
        requires { of.0 < length self.now.arrays }
        ensures items { option_map (λ r. r.items) (slice_get self.now.arrays of.0) ≡ Some result.now }
        ensures held { All (IsIn (sizes_of self.now)) result.now }
    {
        self.arrays[of.0].items()
    }

    /// An instance variable of a module or object, if it is set. Other values have none.
    pub fn get_ivar(&self, of: Value, name: Name) -> Option<Value>
        requires { IsIn (sizes_of self.now) of }
        ensures value { option_map (lookup (nat_eq name.0)) (variables_in self.now of) ≡ Some result }
        ensures held { IfSome result (IsIn (sizes_of self.now)) }
    {
        match of {
            Value::Object(object) => self.objects[object.0].variable(name),
            Value::Module(module) => self.modules[module.0].variable(name),
            _ => None,
        }
    }

    /// A class variable of a class or module itself, if it is set.
    pub fn get_cvar(&self, of: ModuleId, name: Name) -> Option<Value>
        requires { IsIn (sizes_of self.now) (ModuleValue of) }
        ensures value { option_map (λ m. lookup (nat_eq name.0) m.class_variables) (slice_get self.now.modules of.0)
            ≡ Some result }
        ensures held { IfSome result (IsIn (sizes_of self.now)) }
    {
        self.modules[of.0].class_variable(name)
    }

    /// The text that an exception keeps, if it keeps one.
    pub fn message(&self, of: ObjRef) -> Option<&str>
        requires { IsIn (sizes_of self.now) (ObjectValue of) }
        ensures { option_map (λ o. o.message) (slice_get self.now.objects of.0)
            ≡ Some (option_map (λ s. s.now) result) }
    {
        self.objects[of.0].message()
    }

    /// Whether a value is frozen: all are but modules and objects that were not frozen.
    pub fn is_frozen(&self, of: Value) -> bool
        requires { IsIn (sizes_of self.now) of }
        ensures { is_frozen_in self.now of ≡ Some result }
    {
        match of {
            Value::Object(object) => self.objects[object.0].is_frozen(),
            Value::Module(module) => self.modules[module.0].is_frozen(),
            _ => true,
        }
    }
}
