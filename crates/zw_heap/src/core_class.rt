//! Core classes and modules.
ghost use Rattle.std.specs.Prelude.{◌≡◌, ◌<◌, true, Some};
ghost use Rattle.zw_def_world.specs.CoreClass.{core_count};
ghost use Rattle.zw_heap.specs.CoreClass.{core_seen, core_module, kind_seen, kind_of, last_name, is_nested};

use crate::value::{ModuleId, ModuleKind};

/// A core class or module (ISO/IEC 30170, 15.2; the last four are the errors of Zeitwerk).
#[derive(Clone, Copy, Debug, PartialEq, Eq)]
pub enum CoreClass {
    Object,
    Kernel,
    Module,
    Class,
    NilClass,
    TrueClass,
    FalseClass,
    Integer,
    String,
    Symbol,
    Array,
    Exception,
    Zeitwerk,
    ScriptError,
    StandardError,
    SyntaxError,
    LoadError,
    ArgumentError,
    IndexError,
    NameError,
    RangeError,
    RuntimeError,
    TypeError,
    ZeroDivisionError,
    NoMethodError,
    FrozenError,
    ZeitwerkError,
    ReloadingDisabledError,
    SetupRequired,
    ZeitwerkNameError,
}

/// All of them, in the order of their numbers in a heap.
pub(crate) const CORE_CLASSES: [CoreClass; 30] = [
    CoreClass::Object,
    CoreClass::Kernel,
    CoreClass::Module,
    CoreClass::Class,
    CoreClass::NilClass,
    CoreClass::TrueClass,
    CoreClass::FalseClass,
    CoreClass::Integer,
    CoreClass::String,
    CoreClass::Symbol,
    CoreClass::Array,
    CoreClass::Exception,
    CoreClass::Zeitwerk,
    CoreClass::ScriptError,
    CoreClass::StandardError,
    CoreClass::SyntaxError,
    CoreClass::LoadError,
    CoreClass::ArgumentError,
    CoreClass::IndexError,
    CoreClass::NameError,
    CoreClass::RangeError,
    CoreClass::RuntimeError,
    CoreClass::TypeError,
    CoreClass::ZeroDivisionError,
    CoreClass::NoMethodError,
    CoreClass::FrozenError,
    CoreClass::ZeitwerkError,
    CoreClass::ReloadingDisabledError,
    CoreClass::SetupRequired,
    CoreClass::ZeitwerkNameError,
];

fn below(superclass: CoreClass) -> ModuleKind
    ensures { kind_seen result ≡ (true, Some (core_seen superclass).count) }
{
    ModuleKind::Class(Some(superclass.module()))
}

impl CoreClass {
    /// The class or module in every heap.
    pub(crate) fn module(&self) -> ModuleId
        ensures number { result.0 ≡ (core_seen self.now).count }
        ensures few { result.0 < core_count }
    {
        ModuleId(*self as usize)
    }

    /// The last name of its path; that of `Object` is empty.
    pub fn name(&self) -> &'static str
        ensures { result.now ≡ last_name (core_module self.now).path }
    {
        match self {
            CoreClass::Object => "Object",
            CoreClass::Kernel => "Kernel",
            CoreClass::Module => "Module",
            CoreClass::Class => "Class",
            CoreClass::NilClass => "NilClass",
            CoreClass::TrueClass => "TrueClass",
            CoreClass::FalseClass => "FalseClass",
            CoreClass::Integer => "Integer",
            CoreClass::String => "String",
            CoreClass::Symbol => "Symbol",
            CoreClass::Array => "Array",
            CoreClass::Exception => "Exception",
            CoreClass::Zeitwerk => "Zeitwerk",
            CoreClass::ScriptError => "ScriptError",
            CoreClass::StandardError => "StandardError",
            CoreClass::SyntaxError => "SyntaxError",
            CoreClass::LoadError => "LoadError",
            CoreClass::ArgumentError => "ArgumentError",
            CoreClass::IndexError => "IndexError",
            CoreClass::NameError => "NameError",
            CoreClass::RangeError => "RangeError",
            CoreClass::RuntimeError => "RuntimeError",
            CoreClass::TypeError => "TypeError",
            CoreClass::ZeroDivisionError => "ZeroDivisionError",
            CoreClass::NoMethodError => "NoMethodError",
            CoreClass::FrozenError => "FrozenError",
            CoreClass::ZeitwerkError => "Error",
            CoreClass::ReloadingDisabledError => "ReloadingDisabledError",
            CoreClass::SetupRequired => "SetupRequired",
            CoreClass::ZeitwerkNameError => "NameError",
        }
    }

    /// Whether it stands in `Zeitwerk`.
    pub(crate) fn is_of_zeitwerk(&self) -> bool
        ensures { result ≡ is_nested (core_module self.now).path }
    {
        match self {
            CoreClass::ZeitwerkError => true,
            CoreClass::ReloadingDisabledError => true,
            CoreClass::SetupRequired => true,
            CoreClass::ZeitwerkNameError => true,
            _ => false,
        }
    }

    /// Whether it is a module, or a class and below which.
    pub(crate) fn kind(&self) -> ModuleKind
        ensures { kind_seen result ≡ kind_of (core_module self.now) }
    {
        match self {
            CoreClass::Object => ModuleKind::Class(None),
            CoreClass::Kernel => ModuleKind::Module,
            CoreClass::Zeitwerk => ModuleKind::Module,
            CoreClass::Module => below(CoreClass::Object),
            CoreClass::Class => below(CoreClass::Module),
            CoreClass::NilClass => below(CoreClass::Object),
            CoreClass::TrueClass => below(CoreClass::Object),
            CoreClass::FalseClass => below(CoreClass::Object),
            CoreClass::Integer => below(CoreClass::Object),
            CoreClass::String => below(CoreClass::Object),
            CoreClass::Symbol => below(CoreClass::Object),
            CoreClass::Array => below(CoreClass::Object),
            CoreClass::Exception => below(CoreClass::Object),
            CoreClass::ScriptError => below(CoreClass::Exception),
            CoreClass::StandardError => below(CoreClass::Exception),
            CoreClass::SyntaxError => below(CoreClass::ScriptError),
            CoreClass::LoadError => below(CoreClass::ScriptError),
            CoreClass::ArgumentError => below(CoreClass::StandardError),
            CoreClass::IndexError => below(CoreClass::StandardError),
            CoreClass::NameError => below(CoreClass::StandardError),
            CoreClass::RangeError => below(CoreClass::StandardError),
            CoreClass::RuntimeError => below(CoreClass::StandardError),
            CoreClass::TypeError => below(CoreClass::StandardError),
            CoreClass::ZeroDivisionError => below(CoreClass::StandardError),
            CoreClass::NoMethodError => below(CoreClass::NameError),
            CoreClass::FrozenError => below(CoreClass::RuntimeError),
            CoreClass::ZeitwerkError => below(CoreClass::StandardError),
            CoreClass::ReloadingDisabledError => below(CoreClass::ZeitwerkError),
            CoreClass::SetupRequired => below(CoreClass::ZeitwerkError),
            CoreClass::ZeitwerkNameError => below(CoreClass::NameError),
        }
    }
}
