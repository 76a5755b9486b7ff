//! Syntax trees. It stands on the trees of `zw_def_syntax` and on the names of `zw_names`. It promises that each made
//! node stands for the node of the definition over what its parts stand for, with its height, or is refused exactly
//! where it would be more than 100 high; and that all names of a made node are in the maker's table. Makers are called from
//! within nested forms: a made node is behind a pointer, and what a maker of nodes over parts moves about is no part of its
//! caller's frame (`inline(never)`).
#![tactic(auto)]

mod begin;
mod form;
mod grown;
mod leaf;
mod maker;
mod node;
mod operator;
mod part;
mod program;
mod simple;

pub use grown::{Built, Grown, MakeFault, Malformed};
pub use maker::Maker;
pub use node::{Base, Default, MethodName, Node, Order, Part, Rescue};
pub use operator::spell_operators;
pub use part::{Clauses, ConstantPath, Optional, Params, RescueClause, Segment};
pub use program::{Program, Statement};
