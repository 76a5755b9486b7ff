//! Copies of programs. It stands on the nodes of `zw_ast`. It promises that a copy stands for the same tree as what it
//! copies, whatever the names, and that it holds the same names.
#![tactic(auto)]

mod node;
mod program;

pub use node::copy;
pub use program::copy_program;
