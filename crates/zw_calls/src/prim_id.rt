//! The identities of the primitive methods.
ghost use Rattle.std.specs.Prelude.{◌≡◌, option_map};
ghost use Rattle.zw_heap.specs.CoreClass.{core_seen};
ghost use Rattle.zw_calls.specs.Named.{primitive_named};
ghost use Rattle.zw_calls.specs.PrimSeen.{prim_seen};

use crate::array_row::ArrayRow;
use crate::class_row::ClassRow;
use crate::exception_row::ExceptionRow;
use crate::integer_row::IntegerRow;
use crate::kernel_row::KernelRow;
use crate::module_row::ModuleRow;
use crate::nil_row::NilRow;
use crate::object_row::ObjectRow;
use crate::string_row::StringRow;
use crate::symbol_row::SymbolRow;
use zw_heap::CoreClass;

/// A primitive method, by its class or module and its name there.
#[derive(Clone, Copy, Debug, PartialEq, Eq)]
pub enum PrimId {
    Kernel(KernelRow),
    Module(ModuleRow),
    Class(ClassRow),
    Object(ObjectRow),
    Nil(NilRow),
    Integer(IntegerRow),
    String(StringRow),
    Symbol(SymbolRow),
    Array(ArrayRow),
    Exception(ExceptionRow),
}

/// The primitive method of a core class or module that has the name.
pub fn prim(class: CoreClass, name: &str) -> Option<PrimId>
    ensures { option_map prim_seen result ≡ primitive_named (core_seen class) name.now }
{
    match class {
        CoreClass::Kernel => Some(PrimId::Kernel(KernelRow::named(name)?)),
        CoreClass::Module => Some(PrimId::Module(ModuleRow::named(name)?)),
        CoreClass::Class => Some(PrimId::Class(ClassRow::named(name)?)),
        CoreClass::Object => Some(PrimId::Object(ObjectRow::named(name)?)),
        CoreClass::NilClass => Some(PrimId::Nil(NilRow::named(name)?)),
        CoreClass::Integer => Some(PrimId::Integer(IntegerRow::named(name)?)),
        CoreClass::String => Some(PrimId::String(StringRow::named(name)?)),
        CoreClass::Symbol => Some(PrimId::Symbol(SymbolRow::named(name)?)),
        CoreClass::Array => Some(PrimId::Array(ArrayRow::named(name)?)),
        CoreClass::Exception => Some(PrimId::Exception(ExceptionRow::named(name)?)),
        _ => None,
    }
}

/// The class or module of a primitive method, and its name there.
pub fn row(prim: PrimId) -> (CoreClass, &'static str)
    ensures class { core_seen result.0 ≡ (prim_seen prim).owner }
    ensures name { result.1.now ≡ (prim_seen prim).name }
{
    match prim {
        PrimId::Kernel(row) => (CoreClass::Kernel, row.name()),
        PrimId::Module(row) => (CoreClass::Module, row.name()),
        PrimId::Class(row) => (CoreClass::Class, row.name()),
        PrimId::Object(row) => (CoreClass::Object, row.name()),
        PrimId::Nil(row) => (CoreClass::NilClass, row.name()),
        PrimId::Integer(row) => (CoreClass::Integer, row.name()),
        PrimId::String(row) => (CoreClass::String, row.name()),
        PrimId::Symbol(row) => (CoreClass::Symbol, row.name()),
        PrimId::Array(row) => (CoreClass::Array, row.name()),
        PrimId::Exception(row) => (CoreClass::Exception, row.name()),
    }
}
