//! How nodes and programs end.
use zw_heap::{ObjRef, Value};

/// How a node ends (ISO/IEC 30170, 11.5.2): with a value, with an exception that is raised, by leaving a loop, a turn or a
/// method, with no step left, or too deep.
#[derive(Clone, Copy, Debug, PartialEq, Eq)]
pub enum Flow {
    Value(Value),
    Raised(ObjRef),
    /// `break`.
    Break,
    /// `next`.
    Next,
    /// `return`, with its value.
    Return(Value),
    /// With fewer steps left than are to be paid.
    Budget,
    /// At the deepest level.
    Depth,
}
