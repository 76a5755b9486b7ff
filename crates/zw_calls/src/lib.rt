//! What primitive methods share (ISO/IEC 30170, 15.2): which there are, by class and name, the tests of their arguments
//! with the faults that these raise, and the texts and arrays that they make. It stands on the values of `zw_heap`, the
//! steps of `zw_meter`, the faults of `zw_fault`, the texts of `zw_show` and the tables of `zw_table`. It promises that
//! `prim` is some method exactly where the definition has one, that a fault is the definition's in every world that agrees
//! with the heap, and that what is made is paid for first. Its definitions say how a call ends; its lemmas carry calls
//! through the tests of their arguments, for the crates above.
#![tactic(auto)]

pub mod argument;
mod array_row;
pub mod checks;
pub mod class;
mod class_row;
pub mod end;
mod exception_row;
mod integer_row;
mod kernel_row;
pub mod kind;
pub mod making;
mod module_row;
mod nil_row;
mod object_row;
mod prim_id;
pub mod reading;
mod string_row;
mod symbol_row;

pub use argument::Arguments;
pub use array_row::ArrayRow;
pub use class_row::ClassRow;
pub use end::PrimEnd;
pub use exception_row::ExceptionRow;
pub use integer_row::IntegerRow;
pub use kernel_row::KernelRow;
pub use kind::Kind;
pub use module_row::ModuleRow;
pub use nil_row::NilRow;
pub use object_row::ObjectRow;
pub use prim_id::{PrimId, prim, row};
pub use string_row::StringRow;
pub use symbol_row::SymbolRow;
