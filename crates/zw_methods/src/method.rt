//! Methods, and the places in which they are looked for.

use zw_calls::PrimId;
use zw_heap::ModuleId;
use zw_names::Name;

/// The body of a method that a program defines, by its number where such bodies are kept.
#[derive(Clone, Copy, Debug, PartialEq, Eq)]
pub struct BodyId(pub usize);

/// What a method does.
#[derive(Clone, Copy, Debug, PartialEq, Eq)]
pub enum MethodBody {
    /// It evaluates a body that a program defines.
    Code(BodyId),
    /// It reads an instance variable (ISO/IEC 30170, 15.2.2.4.12).
    Reader(Name),
    /// It writes an instance variable (ISO/IEC 30170, 15.2.2.4.13).
    Writer(Name),
    /// It is a primitive one.
    Prim(PrimId),
}

/// A method, and whether it is called without a receiver alone (ISO/IEC 30170, 13.3.5).
#[derive(Clone, Copy, Debug, PartialEq, Eq)]
pub struct Method {
    pub body: MethodBody,
    pub private: bool,
}

/// A table of a line: that of a module's instances, or its singleton one.
#[derive(Clone, Copy, Debug, PartialEq, Eq)]
pub struct ModuleLine {
    pub module: ModuleId,
    pub singleton: bool,
}

/// A method that was found, and the place in the line of the table that has it, from 0.
#[derive(Clone, Copy, Debug, PartialEq, Eq)]
pub struct Found {
    pub at: usize,
    pub method: Method,
}
