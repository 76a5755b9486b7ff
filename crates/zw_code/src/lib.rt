//! The code of methods that a program defines, and what several owners share. It stands on the nodes of `zw_ast` and the
//! modules of `zw_heap`. It promises that what is shared is the value that was shared, and tells the code of a method as
//! the definition's.
#![tactic(auto)]

mod code;
mod shared;

pub use code::{Code, Scopes};
pub use shared::Shared;
