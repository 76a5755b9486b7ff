//! What primitive methods do (ISO/IEC 30170, 15.2). Here stand those of Kernel, Module, Class, Object, NilClass, Integer
//! and Exception; `zw_strings` and `zw_arrays` have those of String, Symbol and Array. It stands on `zw_calls`, which tells
//! how calls end and tests their arguments. It promises that a call ends as defined in every world that agrees with the
//! heap, with the steps that are left, and that a method is answered as one to be finished elsewhere exactly where it
//! is marked as one. Texts, arrays and names alone are added, and none that is not paid for; the message of an exception
//! alone is changed.
#![tactic(auto)]

mod call;
pub mod class;
pub mod exception;
pub mod integer;
pub mod kernel;
pub mod module;
pub mod nil;
pub mod object;
mod shown;

pub use call::apply;
