//! What programs make, told as the world of the definition. It stands on the stores `zw_heap`, `zw_consts` and
//! `zw_methods`, which a session owns with the names and the code of methods, on `zw_ops` for the rules of one node, and
//! on `zw_prims` for primitive methods. It promises that each call leads to the world to which the definition's step
//! leads, that each refusal is the exception that the definition raises there, and that nothing is changed without
//! memory.
#![tactic(auto)]

mod constant;
mod fault;
mod law;
mod method;
mod module;
mod session;
mod variable;

pub use session::Session;
