//! What programs make: modules and objects with their records, texts, and arrays. It stands on `zw_names` for names
//! and constant paths, on the definitions of records and limits in `zw_def_world`, and on `indexmap`, which keeps
//! variables in the order in which they were first set. It promises that a record that is read is the record that was
//! written last, that a new record differs from all others, that a frozen one never changes, that each value of a heap
//! is in it, that no module leads to itself by superclasses and includes, and that what boot left can be copied, under
//! the same numbers.
#![tactic(auto)]

mod array_record;
mod boot;
mod core_class;
mod count;
mod exception;
mod fault;
mod heap;
mod law;
mod make;
mod mark;
mod module_record;
mod new_heap;
mod object_record;
mod place;
mod places;
mod prim;
mod read;
mod value;
mod variables;
mod write;

pub use core_class::CoreClass;
pub use fault::{HeapFault, HeapRefusal};
pub use heap::Heap;
pub use place::PlaceId;
pub use prim::PrimId;
pub use value::{ArrayRef, ModuleId, ModuleKind, ObjRef, TextRef, Value};
