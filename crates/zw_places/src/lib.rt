//! Where nodes may stand in a statement. It stands on the nodes of `zw_ast`, on the reasons of `zw_lexer` and on the
//! places of `zw_def_syntax`. It promises the definition's own answer: the least reason for which a statement is
//! refused, or none, in time linear in its nodes and names.
#![tactic(auto)]

mod check;
mod fault;
mod parameters;
mod place;
mod walk;

pub use fault::fault_of;
