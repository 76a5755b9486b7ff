//! Values, and the numbers of what a heap holds.

use zw_names::Name;

/// A text of a heap, by its number there.
#[derive(Clone, Copy, Debug, PartialEq, Eq)]
pub struct TextRef(pub usize);

/// An array of a heap, by its number there.
#[derive(Clone, Copy, Debug, PartialEq, Eq)]
pub struct ArrayRef(pub usize);

/// An object of a heap, by its number there.
#[derive(Clone, Copy, Debug, PartialEq, Eq)]
pub struct ObjRef(pub usize);

/// A class or module of a heap, by its number there.
#[derive(Clone, Copy, Debug, PartialEq, Eq)]
pub struct ModuleId(pub usize);

/// A value (ISO/IEC 30170, 6.2). Texts and arrays never change; only modules and objects have an identity.
#[derive(Clone, Copy, Debug, PartialEq, Eq)]
pub enum Value {
    Nil,
    True,
    False,
    Int(i64),
    Text(TextRef),
    Sym(Name),
    Array(ArrayRef),
    Object(ObjRef),
    Module(ModuleId),
}

/// Whether a record is that of a module or of a class. `Object` alone is a class without a superclass.
#[derive(Clone, Copy, Debug, PartialEq, Eq)]
pub enum ModuleKind {
    Module,
    Class(Option<ModuleId>),
}
